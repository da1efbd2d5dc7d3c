// Interrupt sources: their bits in a request byte or a wired byte, and their vectors.
ghost use Rattle.std.specs.Prelude.{◌≡◌};
ghost use Rattle.isa.specs.Sources.{names_only_sources, is_named, vector_of};

use crate::Source;

// The address where the program begins after a reset.
pub const RESET_VECTOR: u16 = 0xFFE;

// The sources in the order of their numbers.
pub const SOURCES: [Source; 5] = [
    Source::Nmi,
    Source::First,
    Source::Second,
    Source::Third,
    Source::Fourth,
];

// Whether a byte names nothing but sources: bits 5, 6 and 7 are 0.
pub fn names_only_sources(byte: u8) -> bool
    ensures { result ≡ names_only_sources byte }
{
    byte < 32
}

// Whether a byte has the bit of a source.
pub fn names(byte: u8, source: Source) -> bool
    ensures { result ≡ is_named byte source }
{
    match source {
        Source::Nmi => byte % 2 == 1,
        Source::First => byte / 2 % 2 == 1,
        Source::Second => byte / 4 % 2 == 1,
        Source::Third => byte / 8 % 2 == 1,
        Source::Fourth => byte / 16 % 2 == 1,
    }
}

// The address where a source's service begins, by the manual's table.
pub fn vector_of(source: Source) -> u16
    ensures { result ≡ vector_of source }
{
    match source {
        Source::Nmi => 0xFFC,
        Source::First => 0xFF6,
        Source::Second => 0xFF4,
        Source::Third => 0xFF2,
        Source::Fourth => 0xFF0,
    }
}
