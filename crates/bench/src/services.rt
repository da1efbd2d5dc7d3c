// Which request's service a step ends, by the modes before and after it: what a trace says of a RETI
// (specs/ServiceEnds.antt).
ghost use Rattle.std.specs.Prelude.{◌≡◌};
ghost use Rattle.bench.specs.ServiceEnds.{open_services, latest_of, served_in, ended_of};

use control::Mode;
use isa::Source;

fn open_services(mode: Mode) -> u8
    ensures { result ≡ open_services mode }
{
    match mode {
        Mode::Reset | Mode::Normal => 0,
        Mode::Interrupt | Mode::NmiOverNormal => 1,
        Mode::NmiOverInterrupt => 2,
    }
}

fn served_in(mode: Mode, latest: Source) -> Option<Source>
    ensures { result ≡ served_in mode latest }
{
    match mode {
        Mode::Reset | Mode::Normal => None,
        Mode::Interrupt => Some(latest),
        Mode::NmiOverNormal | Mode::NmiOverInterrupt => Some(Source::Nmi),
    }
}

// Of the sources 1 to 4 the one taken last, where a step takes a request or none.
pub fn latest_source(latest: Source, requested: Option<Source>) -> Source
    ensures { result ≡ latest_of latest requested }
{
    match requested {
        None | Some(Source::Nmi) => latest,
        Some(source) => source,
    }
}

// The request whose service a step ends, if any.
#[tactic(auto, unfolding(crate::specs::ServiceEnds::ended_of))]
pub fn ended_request(before: Mode, after: Mode, latest: Source) -> Option<Source>
    ensures { result ≡ ended_of before after latest }
{
    if open_services(after) < open_services(before) {
        served_in(before, latest)
    } else {
        None
    }
}
