// Writing an instruction into a buffer.
ghost use Rattle.std.specs.Prelude.{◌≡◌, ◌<◌, length};
ghost use Rattle.isa.specs.Refusals.{answered};
ghost use Rattle.isa.specs.Write.{Wrote, fitted, put};
ghost use Rattle.isa.specs.Encode.{encode_of};

use crate::encode::encode;
use crate::{Encoded, Instruction, Refusal};

// Puts an instruction's bytes at the buffer's start, where they fit.
fn put(bytes: &[u8], buffer: &mut [u8]) -> Result<u8, Refusal>
    requires { length bytes.now < 256 }
    ensures answer { answered result ≡ fitted bytes.now (length buffer.old) }
    ensures buffer { buffer.new ≡ put bytes.now buffer.old }
{
    if buffer.len() < bytes.len() {
        return Err(Refusal::BufferLength);
    }
    buffer[..bytes.len()].copy_from_slice(bytes);
    Ok(bytes.len() as u8)
}

// Writes an instruction from the buffer's first byte.
#[tactic(auto, unfolding(crate::specs::Write::outcome, crate::specs::Write::buffer_after))]
pub fn write(instruction: Instruction, buffer: &mut [u8]) -> Result<u8, Refusal>
    ensures { Wrote (encode_of instruction) buffer.old buffer.new result }
{
    match encode(instruction) {
        Some(Encoded::One(a)) => put(&[a], buffer),
        Some(Encoded::Two(a, b)) => put(&[a, b], buffer),
        Some(Encoded::Three(a, b, c)) => put(&[a, b, c], buffer),
        None => Err(Refusal::OperandRange),
    }
}
