// The levels that a certificate allows for.
ghost use Rattle.std.specs.Prelude.{◌≡◌};
ghost use Rattle.certificate.specs.Levels.{levels_for, source_levels, levels_of};

use crate::marks::need_at;
use isa::Source;
use isa::sources::{RESET_VECTOR, names, vector_of};

// The levels that a source's service can take: its own, and the need at its vector; none where the source is not wired.
#[tactic(auto, using(crate::proofs::SourceLevels::need_most), unfolding(crate::specs::Levels::levels_for))]
pub fn levels_for(certificate: &[u8], wired: u8, source: Source) -> u8
    ensures { result ≡ levels_for certificate.now wired source }
{
    if names(wired, source) {
        1 + need_at(certificate, vector_of(source))
    } else {
        0
    }
}

// The levels of the deepest service of sources 1 to 4, which do not interrupt one another.
#[tactic(auto, using(crate::proofs::SourceLevels::source_levels_lem))]
pub fn source_levels(certificate: &[u8], wired: u8) -> u8
    ensures { result ≡ source_levels certificate.now wired }
{
    let first = levels_for(certificate, wired, Source::First);
    let second = levels_for(certificate, wired, Source::Second);
    let third = levels_for(certificate, wired, Source::Third);
    let fourth = levels_for(certificate, wired, Source::Fourth);
    first.max(second).max(third).max(fourth)
}

// The levels of a certificate: start-up and main code, a service of sources 1 to 4 over it, and that of NMI over both.
#[tactic(auto, using(crate::proofs::SourceLevels::need_most, crate::proofs::SourceLevels::sources_most, crate::proofs::SourceLevels::levels_most), unfolding(crate::specs::Levels::levels_of))]
pub fn levels_of(certificate: &[u8], wired: u8) -> u8
    ensures { result ≡ levels_of certificate.now wired }
{
    let need = need_at(certificate, RESET_VECTOR);
    let sources = source_levels(certificate, wired);
    need + sources + levels_for(certificate, wired, Source::Nmi)
}
