// Steps in a row, which are one run.
ghost use Rattle.std.specs.Prelude.{IfSome};
ghost use Rattle.playback.specs.Row.{StepAt, Begins, Gathered};

use crate::Entry;
use crate::entries::first_entry;
use isa::sources::names_only_sources;

// The most steps that are gathered for a run, each with its request.
pub const ROW: usize = 4096;

// The request of the step that begins there, if one does and it names nothing but sources.
fn request_at(body: &[u8], at: usize) -> Option<u8>
    ensures { IfSome result (λ request. StepAt body.now at request) }
{
    let Some((Entry::Step(request), _)) = first_entry(body.get(at..)?) else {
        return None;
    };
    if names_only_sources(request) {
        Some(request)
    } else {
        None
    }
}

// Gathers the request of the step that a body begins with and those of the steps in a row after it, which are one run
// then, and counts them: as many as there is room for, up to one that names more than sources, since the whole run
// would be refused for it. Where the first does, the run is refused as that step is.
pub fn gather(requests: &mut [u8; ROW], first: u8, body: &[u8]) -> usize
    requires { Begins body.now first }
    ensures { Gathered body.now requests.new result }
{
    requests[0] = first;
    for i in 1..ROW {
        let Some(request) = request_at(body, 2 * i) else {
            return i;
        };
        requests[i] = request;
    }
    ROW
}
