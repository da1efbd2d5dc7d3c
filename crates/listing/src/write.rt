// A line written to a buffer.
ghost use Rattle.listing.specs.Write.{Writes};

use crate::Line;
use isa::Refusal;

// Writes a line from the buffer's first byte, where it fits, and answers how many bytes it has; bytes after it stay.
pub fn write(line: Line, buffer: &mut [u8]) -> Result<usize, Refusal>
    ensures { Writes line buffer.old buffer.new result }
{
    line.write(buffer).ok_or(Refusal::BufferLength)
}
