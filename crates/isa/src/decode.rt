// Decoding at a program address of an image.
ghost use Rattle.std.specs.Prelude.{◌≡◌, ◌<◌};
ghost use Rattle.isa.specs.Rom.{IsImage, space_of};
ghost use Rattle.isa.specs.Decode.{answer_of, decode_of, decode_in};

use crate::code::code_at;
use crate::map::form;
use crate::parts::space_in;
use crate::rom::{HALF_SPACE, is_image_length};
use crate::table::timing_by_map;
use crate::{Decoded, Refusal};

// Decoding without the tests of the image's length and the address, for a caller that has made them: the promise holds
// where they would pass. An image without a fixed half is refused at once: every step decodes, and the halves are then
// found without further tests.
pub fn decode_in_range(image: &[u8], bank: u8, address: u16) -> Result<Decoded, Refusal>
    ensures { IsImage image.now → address < 4096
        → answer_of result ≡ decode_of (space_of image.now bank) address }
{
    if image.len() < HALF_SPACE {
        return Err(Refusal::ImageLength);
    }
    let Some((opcode, first, second)) = code_at(space_in(image, bank), address) else {
        return Err(Refusal::OutsideRom(address));
    };
    let Some(instruction) = form(opcode, first, second) else {
        return Err(Refusal::UndefinedOpcode(address));
    };
    let timing = timing_by_map(opcode);
    Ok(Decoded {
        instruction,
        length: timing.length,
        cycles: timing.cycles,
    })
}

// The instruction at an address of an image with a bank byte. The answer is taken apart and made again: handed on
// whole, it is read at once from the memory into which it was written part by part, and the processor waits for that.
pub fn decode(image: &[u8], bank: u8, address: u16) -> Result<Decoded, Refusal>
    ensures { answer_of result ≡ decode_in image.now bank address }
{
    if !is_image_length(image.len()) {
        return Err(Refusal::ImageLength);
    }
    if 4096 <= address {
        return Err(Refusal::AddressRange);
    }
    match decode_in_range(image, bank, address) {
        Err(refusal) => Err(refusal),
        Ok(
            Decoded {
                instruction,
                length,
                cycles,
            },
        ) => Ok(Decoded {
            instruction,
            length,
            cycles,
        }),
    }
}
