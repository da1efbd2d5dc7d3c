// A HEX file read into an image.
ghost use Rattle.intel_hex.specs.Read.{Reads};

use crate::HexError;
use crate::image::{fill_image, lowest_of};
use crate::lines::read_lines;
use isa::rom::is_space_length;

// Reads a text into the lent image, whose last byte is that of FFFh: each byte that no data record names is `fill`.
// Answers the lowest address that the text names, 4096 if it names none. The image is written only once every line is
// accepted.
pub fn read(text: &[u8], fill: u8, image: &mut [u8]) -> Result<u16, HexError>
    ensures { Reads text.now fill image.old image.new result }
{
    let size = image.len();
    if !is_space_length(size) {
        return Err(HexError::ImageLength);
    }
    let first = 4096 - size;
    let mut memory = [None; 4096];
    read_lines(text, first, &mut memory)?;
    fill_image(&memory, first, fill, image);
    Ok(lowest_of(&memory))
}
