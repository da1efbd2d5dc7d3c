// A run: refusals, then single steps in a row.
ghost use Rattle.std.specs.Prelude.{◌≡◌, List, ℕ};
ghost use Rattle.isa.specs.Refusals.{numbered};
ghost use Rattle.machine.specs.State.{machine_of};
ghost use Rattle.machine.specs.Steps.{ran_of, progress_as, requests_fit};
ghost use Rattle.machine.specs.Run.{refused_run, run_of};

use crate::steps::by_store;
use crate::{FlagPairs, Machine, Ran, Report, RunProgress};
use control::Control;
use control::well_formed::is_well_formed;
use isa::Refusal;
use isa::rom::is_image_length;
use isa::sources::names_only_sources;

// The longest run.
const MOST_STEPS: u32 = 65535;

// Whether the first n request bytes name nothing but sources; past the list's end there are no requests.
fn requests_fit(requests: &[u8], n: u32) -> bool
    ensures { result ≡ requests_fit requests.now n }
{
    requests
        .iter()
        .take(n as usize)
        .all(|&request| names_only_sources(request))
}

fn refused_run(control: Control, flags: FlagPairs, reason: Refusal) -> RunProgress
    ensures { (bytes stack : List ℕ)
        → progress_as bytes stack result ≡ refused_run (machine_of control stack flags bytes) (numbered reason) }
{
    RunProgress {
        control,
        flags,
        report: Report {
            steps: 0,
            cycles: 0,
            ending: Err(reason),
        },
    }
}

// A run of n steps on lent data bytes and a lent stack. Refuses with 1, 2, 12, then 11.
#[tactic(auto, unfolding(crate::specs::Run::run_of))]
pub fn run_lent(
    image: &[u8],
    bytes: &mut [u8; 256],
    stack: &mut [u16; 6],
    c: Control,
    flags: FlagPairs,
    requests: &[u8],
    n: u32,
) -> RunProgress
    ensures { progress_as bytes.new stack.new result
        ≡ run_of image.now (machine_of c stack.old flags bytes.old)
        requests.now n }
{
    if !is_image_length(image.len()) {
        return refused_run(c, flags, Refusal::ImageLength);
    }
    if !is_well_formed(stack, c) {
        return refused_run(c, flags, Refusal::IllFormedMachine);
    }
    if MOST_STEPS < n {
        return refused_run(c, flags, Refusal::StepCount);
    }
    if !requests_fit(requests, n) {
        return refused_run(c, flags, Refusal::UnknownSource);
    }
    by_store(image, bytes, stack, c, flags, requests, n)
}

// A run of n steps of a machine.
pub fn run(image: &[u8], m: Machine, requests: &[u8], n: u32) -> Ran
    ensures { ran_of result ≡ run_of image.now m requests.now n }
{
    let mut bytes = m.bytes;
    let mut stack = m.stack;
    let after = run_lent(
        image, &mut bytes, &mut stack, m.control, m.flags, requests, n,
    );
    Ran {
        machine: Machine {
            control: after.control,
            stack,
            flags: after.flags,
            bytes,
        },
        report: after.report,
    }
}
