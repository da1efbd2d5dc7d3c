// Program space with a page in place: its bytes, and addresses with the page that they lie in.
ghost use Rattle.std.specs.Prelude.{◌≡◌};
ghost use Rattle.listing.specs.Pieces.{Adds};
ghost use Rattle.listing.specs.Pages.{choices_in, page_text, paged_text, rom_in};

use crate::Line;
use isa::rom::{Space, is_image_length, spaces_in};

// The ROM byte at an address with a bank byte: none where there is no image, or no such address.
#[tactic(auto, unfolding(crate::specs::Pages::rom_in))]
pub fn rom_in(image: &[u8], bank: u8, address: u16) -> Option<u8>
    ensures { result ≡ rom_in image.now bank address }
{
    if !is_image_length(image.len()) {
        return None;
    }
    if 4096 <= address {
        return None;
    }
    Space::of(image, bank).byte(address)
}

// How many pages an image of so many bytes has to choose from: 1 where there is no choice.
#[tactic(auto, unfolding(crate::specs::Pages::choices_in))]
pub fn choices_in(length: usize) -> u8
    ensures { result ≡ choices_in length }
{
    if !is_image_length(length) {
        return 1;
    }
    spaces_in(length)
}

// Adds the page in place, as `2:`, where there are several and the address lies in it. A line that stays as it is gets the
// empty word, here and elsewhere: that states that it is within its array.
#[tactic(auto, unfolding(crate::specs::Pages::page_text))]
pub fn page_text(line: Line, length: usize, bank: u8, address: u16) -> Line
    ensures { Adds (page_text length bank address) line result }
{
    let pages = choices_in(length);
    if pages <= 1 {
        return line.word(b"");
    }
    if 2048 <= address {
        return line.word(b"");
    }
    line.decimal((bank % pages) as u32).letter(b':')
}

// Adds an address with its page.
pub fn paged_address(line: Line, length: usize, bank: u8, address: u16) -> Line
    ensures { Adds (paged_text length bank address) line result }
{
    page_text(line, length, bank, address).address(address)
}
