// The instruction at an address of an image with a bank byte, as text in a buffer.
ghost use Rattle.isa.specs.Decode.{decode_in};
ghost use Rattle.listing.specs.Disassemble.{WritesText, text_of};

use crate::Line;
use crate::instruction::instruction;
use crate::write::write;
use isa::Refusal;
use isa::decode::decode;

// Writes the text of the instruction at an address from the buffer's first byte. What decoding refuses is refused.
#[tactic(auto, unfolding(crate::specs::Disassemble::WritesText))]
pub fn write_instruction(
    image: &[u8],
    bank: u8,
    address: u16,
    buffer: &mut [u8],
) -> Result<usize, Refusal>
    ensures { WritesText (text_of address (decode_in image.now bank address))
        buffer.old buffer.new result }
{
    let decoded = decode(image, bank, address)?;
    write(
        instruction(Line::new(), decoded.instruction, address),
        buffer,
    )
}
