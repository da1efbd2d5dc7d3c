// The levels of a certificate, as they add up.
ghost use Rattle.reports.specs.Levels.{Parts};

use crate::output::{Written, put};
use certificate::levels::{levels_for, source_levels};
use certificate::marks::{MOST_LEVELS, need_at};
use isa::Source;
use isa::sources::{RESET_VECTOR, names};
use listing::Line;

// Levels in start-up and main code, for the deepest service of sources 1 to 4, and for NMI's.
#[derive(Clone, Copy, Debug, PartialEq, Eq)]
pub struct Levels {
    pub start: u8,
    pub services: u8,
    pub nmi: u8,
}

// The parts of a certificate's levels.
pub fn parts_of(certificate: &[u8], wired: u8) -> Levels
    ensures { Parts certificate.now wired result }
{
    let start = need_at(certificate, RESET_VECTOR);
    let services = source_levels(certificate, wired);
    let nmi = levels_for(certificate, wired, Source::Nmi);
    Levels {
        start,
        services,
        nmi,
    }
}

// `= 2 of 6`, or that the chip has fewer.
fn total(line: Line, sum: u32) -> Line {
    let line = line.word(b" = ").decimal(sum);
    if sum <= u32::from(MOST_LEVELS) {
        return line.word(b" of 6");
    }
    line.word(b", and the chip has 6")
}

// The line that adds them up.
pub fn put_levels(rt: &HostRuntime, certificate: &[u8], wired: u8) -> Written {
    let parts = parts_of(certificate, wired);
    let line = Line::new()
        .word(b"levels: ")
        .decimal(u32::from(parts.start))
        .word(b" (start-up and main code) + ")
        .decimal(u32::from(parts.services))
        .word(b" (services) + ")
        .decimal(u32::from(parts.nmi))
        .word(b" (NMI)");
    let sum = u32::from(parts.start) + u32::from(parts.services) + u32::from(parts.nmi);
    put(rt, total(line, sum))
}

// A wired source's name.
fn source_name(line: Line, wired: u8, source: Source, name: &[u8]) -> Line {
    if names(wired, source) {
        line.letter(b' ').word(name)
    } else {
        line
    }
}

// The line of the wired sources.
pub fn put_wired(rt: &HostRuntime, wired: u8) -> Written {
    let line = Line::new().word(b"wired:");
    if wired == 0 {
        return put(rt, line.word(b" none"));
    }
    let line = source_name(line, wired, Source::Nmi, b"nmi");
    let line = source_name(line, wired, Source::First, b"1");
    let line = source_name(line, wired, Source::Second, b"2");
    let line = source_name(line, wired, Source::Third, b"3");
    put(rt, source_name(line, wired, Source::Fourth, b"4"))
}
