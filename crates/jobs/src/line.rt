// The line that an answer is printed as.
ghost use Rattle.std.specs.Prelude.{◌≡◌, ◌≤◌, length};
ghost use Rattle.isa.specs.Refusals.{answered, as_numbered, refused};
ghost use Rattle.jobs.specs.Line.{line_of};

use crate::LineBuffer;
use isa::refusals::number_of;
use isa::{Number, Refusal};

// The line of a refusal: its number, and its address where it has one.
fn refusal_line(number: Number) -> LineBuffer
    ensures whole { result ≡ line_of (refused (as_numbered number)) }
    ensures short { length result ≤ 16 }
{
    let line = LineBuffer::new().word(b"refused ");
    match number {
        Number::Plain(n) => line.decimal(n as u32).letter(b'\n'),
        Number::Located(n, a) => line.decimal(n as u32).letter(b' ').address(a).letter(b'\n'),
    }
}

// The line of a job's answer. It is whole: none is so long that it would be cut off.
pub fn line_of(checked: Result<u8, Refusal>) -> LineBuffer
    ensures whole { result ≡ line_of (answered checked) }
    ensures short { length result ≤ 16 }
{
    match checked {
        Ok(levels) => LineBuffer::new()
            .word(b"accepted ")
            .decimal(levels as u32)
            .letter(b'\n'),
        Err(refusal) => refusal_line(number_of(refusal)),
    }
}
