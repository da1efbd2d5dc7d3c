// The parts of an image that has a fixed half: for callers in this crate, which have tested its length. They stand beside
// rom's functions for speed: every step decodes, and both halves are found by one test.
ghost use Rattle.std.specs.Prelude.{◌≡◌, ◌≤◌, length};
ghost use Rattle.isa.specs.Rom.{page_of, fixed_of};

use crate::rom::{HALF_SPACE, Space};

// The page that a bank byte picks. Of one page there is nothing to divide.
#[tactic(auto, unfolding(crate::specs::Rom::page_of))]
pub fn page_in(image: &[u8], bank: u8) -> &[u8]
    requires { 2048 ≤ length image.now }
    ensures { result.now ≡ page_of image.now bank }
{
    let end = image.len() - HALF_SPACE;
    if end <= HALF_SPACE {
        return &image[..end];
    }
    let start = (bank as usize) % (end / HALF_SPACE) * HALF_SPACE;
    &image[start..start + HALF_SPACE]
}

// The fixed half: the last of an image.
#[tactic(auto, unfolding(crate::specs::Rom::fixed_of))]
pub fn fixed_in(image: &[u8]) -> &[u8]
    requires { 2048 ≤ length image.now }
    ensures { result.now ≡ fixed_of image.now }
{
    let start = image.len() - HALF_SPACE;
    &image[start..]
}

// Program space of an image with a bank byte.
pub fn space_in(image: &[u8], bank: u8) -> Space
    requires { 2048 ≤ length image.now }
    ensures page { result.page.now ≡ page_of image.now bank }
    ensures fixed { result.fixed.now ≡ fixed_of image.now }
{
    Space {
        page: page_in(image, bank),
        fixed: fixed_in(image),
    }
}
