// The vectors of reset and of the wired sources.
ghost use Rattle.std.specs.Prelude.{◌≡◌, Some};
ghost use Rattle.isa.specs.Refusals.{answered};
ghost use Rattle.certificate.specs.Marks.{kind_number};
ghost use Rattle.certificate.specs.Vectors.{vector_found, source_found, vectors_found};

use crate::marks::{Kind, kind_at};
use isa::sources::{RESET_VECTOR, names, vector_of};
use isa::{Refusal, Source};

// A vector that must have a kind.
#[tactic(auto, unfolding(crate::specs::Vectors::vector_found))]
fn check_vector(certificate: &[u8], vector: u16, kind: Kind) -> Result<(), Refusal>
    ensures { answered result ≡ vector_found certificate.now vector (kind_number (Some kind)) }
{
    if kind_at(certificate, vector) == Some(kind) {
        Ok(())
    } else {
        Err(Refusal::VectorKind(vector))
    }
}

// A source's vector, where the source is wired.
#[tactic(auto, unfolding(crate::specs::Vectors::source_found))]
fn check_source(certificate: &[u8], wired: u8, source: Source) -> Result<(), Refusal>
    ensures { answered result ≡ source_found certificate.now wired source }
{
    if names(wired, source) {
        check_vector(certificate, vector_of(source), Kind::Service)
    } else {
        Ok(())
    }
}

// The first vector of a wrong kind: FFEh, then the sources upward. A loop over a table of them would be no plainer: the
// table has a line for each source too.
#[tactic(auto, unfolding(crate::specs::Vectors::vectors_found))]
pub fn check_vectors(certificate: &[u8], wired: u8) -> Result<(), Refusal>
    ensures { answered result ≡ vectors_found certificate.now wired }
{
    check_vector(certificate, RESET_VECTOR, Kind::StartUp)?;
    check_source(certificate, wired, Source::Nmi)?;
    check_source(certificate, wired, Source::First)?;
    check_source(certificate, wired, Source::Second)?;
    check_source(certificate, wired, Source::Third)?;
    check_source(certificate, wired, Source::Fourth)
}
