// The page with which the check found a rule broken.
ghost use Rattle.std.specs.Prelude.{◌≡◌, true, ◌<◌, ◌++◌, length};
ghost use Rattle.isa.specs.Refusals.{answered};
ghost use Rattle.isa.specs.Rom.{IsImage, space_of};
ghost use Rattle.certificate.specs.Check.{check_of};
ghost use Rattle.reports.specs.PageFound.{FoundFirst, refuses_at};

use certificate::check::check;
use isa::refusals::number_of;
use isa::rom::{HALF_SPACE, PROGRAM_SPACE, fixed_of, is_image_length, page_of, spaces_in};
use isa::{Number, Refusal};

// Program space as it stands: a page, then the fixed half.
fn join<'a>(page: &'a [u8], fixed: &'a [u8], space: &mut [u8])
    requires { (length page.now ≡ 2048) × (length fixed.now ≡ 2048) × (length space.old ≡ 4096) }
    ensures { space.new ≡ page.now ++ fixed.now }
{
    space[..HALF_SPACE].copy_from_slice(page);
    space[HALF_SPACE..].copy_from_slice(fixed);
}

// The check of program space as it stands with a page of several in place.
fn check_with(image: &[u8], page: u8, certificate: &[u8], wired: u8) -> Result<u8, Refusal>
    requires { IsImage image.now × (4096 < length image.now) }
    ensures { answered result ≡ check_of (space_of image.now page) certificate.now wired }
{
    let mut space = [0u8; 4096];
    join(page_of(image, page), fixed_of(image), &mut space);
    check(&space, certificate, wired)
}

// Whether a check refused at an address.
fn is_refused_at(checked: Result<u8, Refusal>, address: u16) -> bool
    ensures { result ≡ refuses_at address (answered checked) }
{
    match checked {
        Ok(_) => false,
        Err(refusal) => match number_of(refusal) {
            Number::Plain(_) => false,
            Number::Located(_, at) => at == address,
        },
    }
}

// The first page with which the check of program space as it then stands refuses at an address; 0 where there is no
// choice, or no such page. The check goes address by address and at each page by page, so where it refuses at this
// address, it does so with that page.
// No Option: its clause `FoundFirst` speaks of a page in each case, and where none is found, page 0 is shown.
pub fn page_found(image: &[u8], certificate: &[u8], wired: u8, address: u16) -> u8
    ensures { IsImage image.now → 4096 < length image.now
        → FoundFirst image.now certificate.now wired address result }
{
    if !is_image_length(image.len()) || image.len() <= PROGRAM_SPACE {
        return 0;
    }
    for page in 0..spaces_in(image.len()) {
        if is_refused_at(check_with(image, page, certificate, wired), address) {
            return page;
        }
    }
    0
}
