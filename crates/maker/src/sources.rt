// The demands at the vectors of reset and of the wired sources.
ghost use Rattle.maker.specs.Making.{Seeds, SourceKind, Seeded};

use crate::Change;
use crate::marking::demand;
use certificate::marks::Kind;
use isa::Source;
use isa::sources::{RESET_VECTOR, SOURCES, names, vector_of};

// Demands that a wired source's vector is a service.
fn seed_source(certificate: &mut [u8], wired: u8, source: Source) -> Change
    ensures { Seeds wired (SourceKind wired source) certificate.old certificate.new result }
{
    if names(wired, source) {
        demand(certificate, vector_of(source), Kind::Service, 0)
    } else {
        Ok(false)
    }
}

// Demands that FFEh is start-up code, and the vector of each wired source a service.
pub fn seed(certificate: &mut [u8], wired: u8) -> Change
    ensures { Seeds wired (Seeded wired) certificate.old certificate.new result }
{
    let mut changed = demand(certificate, RESET_VECTOR, Kind::StartUp, 0)?;
    for source in SOURCES {
        changed |= seed_source(certificate, wired, source)?;
    }
    Ok(changed)
}
