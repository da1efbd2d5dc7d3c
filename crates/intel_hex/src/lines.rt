// A text taken line by line.
ghost use Rattle.std.specs.Prelude.{◌≡◌, false};
ghost use Rattle.intel_hex.specs.Lines.{line_size, lines_of, without_last};
ghost use Rattle.intel_hex.specs.Read.{after_lines, lines_read_of};

use crate::take::take_line;
use crate::{Fault, LineFault};

// How many bytes the first line has, with the 0Ah that ends it.
fn line_size(text: &[u8]) -> usize
    ensures { result ≡ line_size text.now }
{
    match text.iter().position(|character| *character == b'\n') {
        Some(end) => end + 1,
        None => text.len(),
    }
}

// The bytes without the last, where that is the given one.
fn without_last(bytes: &[u8], last: u8) -> &[u8]
    ensures { result.now ≡ without_last last bytes.now }
{
    match bytes.split_last() {
        Some((end, less)) if *end == last => less,
        _ => bytes,
    }
}

// Takes every line, in order; the first that is refused ends it.
// A loop: `ended` goes from line to line, so a chain would fold over the number, the flag and the memory, which is no plainer.
pub fn read_lines(
    text: &[u8],
    first: usize,
    memory: &mut [Option<u8>; 4096],
) -> Result<(), LineFault>
    ensures { lines_read_of result memory.new
        ≡ after_lines first false 1 memory.old (lines_of text.now) }
{
    let mut rest = text;
    let mut number: usize = 1;
    let mut ended = false;
    while !rest.is_empty() {
        let (whole, after) = rest.split_at(line_size(rest));
        let line = without_last(without_last(whole, b'\n'), b'\r');
        match take_line(line, ended, first, memory) {
            Ok(on) => ended = on,
            Err(fault) => {
                return Err(LineFault {
                    line: number,
                    fault,
                });
            }
        }
        number += 1;
        rest = after;
    }
    if ended {
        Ok(())
    } else {
        Err(LineFault {
            line: number,
            fault: Fault::NoEnd,
        })
    }
}
