// Makes the least certificate.
ghost use Rattle.std.specs.Prelude.{◌≡◌, true};
ghost use Rattle.isa.specs.Refusals.{answered};
ghost use Rattle.isa.specs.Sources.{names_only_sources};
ghost use Rattle.maker.specs.Making.{Sound};
ghost use Rattle.maker.specs.Make.{Completed, Makes};

use crate::sources::seed;
use crate::spread::spread;
use crate::sweep::settle;
use certificate::check::marks_in;
use isa::Refusal;
use isa::rom::is_image_length;
use isa::sources::names_only_sources;

// Raises the marks to the least certificate, where there is one: from the vectors along the program's paths, until the
// check accepts them.
fn complete(image: &[u8], certificate: &mut [u8], wired: u8) -> Result<u8, Refusal>
    requires { Sound image.now wired certificate.old × (names_only_sources wired ≡ true) }
    ensures { Completed image.now wired certificate.new (answered result) }
{
    seed(certificate, wired)?;
    spread(image, certificate)?;
    settle(image, certificate, wired)
}

// Writes the least certificate of an image and its wired sources into a buffer, or refuses and leaves the buffer as it
// was.
pub fn make(image: &[u8], wired: u8, buffer: &mut [u8]) -> Result<u8, Refusal>
    ensures { Makes image.now wired buffer.old buffer.new (answered result) }
{
    if !is_image_length(image.len()) {
        return Err(Refusal::ImageLength);
    }
    if !names_only_sources(wired) {
        return Err(Refusal::UnknownSource);
    }
    let size = marks_in(image.len());
    if buffer.len() != size {
        return Err(Refusal::CertificateBuffer);
    }
    let mut work = [0u8; 4096];
    let levels = complete(image, &mut work[..size], wired)?;
    buffer.copy_from_slice(&work[..size]);
    Ok(levels)
}
