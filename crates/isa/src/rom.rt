// The image's bytes by program address. Program space as it stands is a page, or nothing, below 800h, and the fixed half
// above. What is promised of a space holds where the lengths are those of a page, or nothing, and of a fixed half.
ghost use Rattle.std.specs.Prelude.{◌≡◌, true, ◌<◌, ◌%◌};
ghost use Rattle.isa.specs.Rom.{is_image, is_space, spaces_in, page_of, fixed_of, half_of};
ghost use Rattle.isa.specs.Rom.{IsWhole, bytes_in, rom_at, operand_at};

use crate::displacement::forward;
use crate::parts::{fixed_in, page_in};

// How many addresses program space has, and how many of them a half fills.
pub const PROGRAM_SPACE: usize = 4096;

pub const HALF_SPACE: usize = 2048;

// The longest image: nine pages and the fixed half.
const LONGEST: usize = 20480;

// Program space as it stands: a page, or nothing, and the fixed half.
#[derive(Clone, Copy)]
pub struct Space<'a> {
    pub page: &'a [u8],
    pub fixed: &'a [u8],
}

// Whether an image may have this many bytes. That it may is a premise of contracts (`IsImage`) and no type: so each
// function, here and in the crates above, takes any slice, and promises what it did of every one.
pub fn is_image_length(length: usize) -> bool
    ensures { result ≡ is_image length }
{
    length % HALF_SPACE == 0 && (HALF_SPACE..=LONGEST).contains(&length)
}

// Whether program space as it stands may have this many bytes: the lengths of an image that needs no bank byte.
pub fn is_space_length(length: usize) -> bool
    ensures { result ≡ is_space length }
{
    length == HALF_SPACE || length == PROGRAM_SPACE
}

// In how many ways program space can stand: one for each page of an image of this many bytes, and one where there are
// none. An image of one half counts as of two; the bounds keep the number a byte, whatever the length.
pub fn spaces_in(length: usize) -> u8
    ensures { is_image length ≡ true → result ≡ spaces_in length }
{
    (length / HALF_SPACE).clamp(2, LONGEST / HALF_SPACE) as u8 - 1
}

// The number of the page that a bank byte picks; 0 where there is nothing to pick. Without a division where it is the
// bank byte itself: a run waits for it at each change of the page.
pub fn page_number(length: usize, bank: u8) -> u8
    ensures { is_image length ≡ true → result ≡ bank % spaces_in length }
{
    let spaces = spaces_in(length);
    if spaces <= 1 {
        return 0;
    }
    if bank < spaces {
        return bank;
    }
    bank % spaces
}

// The page that a bank byte picks; none of an image of one half.
#[tactic(auto, unfolding(crate::specs::Rom::page_of))]
pub fn page_of(image: &[u8], bank: u8) -> &[u8]
    ensures { result.now ≡ page_of image.now bank }
{
    if image.len() < HALF_SPACE {
        return &image[..0];
    }
    page_in(image, bank)
}

// The fixed half: the last of an image.
#[tactic(auto, unfolding(crate::specs::Rom::fixed_of))]
pub fn fixed_of(image: &[u8]) -> &[u8]
    ensures { result.now ≡ fixed_of image.now }
{
    if image.len() < HALF_SPACE {
        return image;
    }
    fixed_in(image)
}

impl<'a> Space<'a> {
    // Program space of an image with a bank byte.
    pub fn of(image: &'a [u8], bank: u8) -> Space<'a>
        ensures page { result.page.now ≡ page_of image.now bank }
        ensures fixed { result.fixed.now ≡ fixed_of image.now }
    {
        Space {
            page: page_of(image, bank),
            fixed: fixed_of(image),
        }
    }

    // The half in which an address lies.
    #[tactic(auto, unfolding(crate::specs::Rom::half_of))]
    pub fn half(self, address: u16) -> &'a [u8]
        ensures { result.now ≡ half_of self.entry.page.now self.entry.fixed.now address }
    {
        if address < 0x800 {
            return self.page;
        }
        self.fixed
    }

    // The ROM byte at a program address; none outside ROM.
    pub fn byte(self, address: u16) -> Option<u8>
        ensures { IsWhole self.entry → address < 4096
            → result ≡ rom_at (bytes_in self.entry) address }
    {
        self.half(address)
            .get(address as usize % HALF_SPACE)
            .copied()
    }

    // The byte of an instruction at an offset from its address; 0 where the instruction is shorter.
    #[tactic(auto, unfolding(crate::specs::Rom::operand_at))]
    pub fn operand_byte(self, address: u16, offset: u8, length: u8) -> Option<u8>
        ensures { IsWhole self.entry
            → result ≡ operand_at (bytes_in self.entry) address offset length }
    {
        if offset < length {
            self.byte(forward(address, offset))
        } else {
            Some(0)
        }
    }
}
