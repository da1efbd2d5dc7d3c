// The width for a slide count.
ghost use Rattle.std.specs.Prelude.{◌≡◌};
ghost use Rattle.isa.specs.Refusals.{answered};
ghost use Rattle.gauge.specs.Width.{start_of, width_of};

use crate::Measured;
use crate::sleep::measure;
use certificate::check::check;
use isa::Refusal;
use isa::rom::PROGRAM_SPACE;
use machine::Machine;
use machine::state::{fresh, host_store};

// The data address of the slide count.
const COUNT: u8 = 0xC0;

// A fresh machine with the count stored.
fn start(count: u8) -> Machine
    ensures { result ≡ start_of count }
{
    host_store(fresh(), COUNT, count).machine
}

// The width that the gauge would show for a count, and the steps until then. Refuses with 23 an image and certificate
// that the check with nothing wired refuses, and paged images, then with 24 a program that does not sleep.
pub fn width(image: &[u8], certificate: &[u8], count: u8) -> Result<Measured, Refusal>
    ensures { answered result ≡ width_of image.now certificate.now count }
{
    if PROGRAM_SPACE < image.len() {
        return Err(Refusal::CheckRefused);
    }
    let Ok(_) = check(image, certificate, 0) else {
        return Err(Refusal::CheckRefused);
    };
    measure(image, start(count))
}
