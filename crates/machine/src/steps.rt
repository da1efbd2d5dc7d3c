// The steps of a run, with request byte i at step i.
ghost use Rattle.std.specs.Prelude.{◌≡◌, List, true, ℕ, ◌*◌, ◌≤◌, ◌<◌, get_or, length, is_some};
ghost use Rattle.isa.specs.Rom.{IsImage};
ghost use Rattle.isa.specs.Refusals.{done};
ghost use Rattle.control.specs.Requests.{requested_of};
ghost use Rattle.control.specs.WellFormed.{well_formed};
ghost use Rattle.machine.specs.Actions.{enabled_of};
ghost use Rattle.machine.specs.Advance.{done_of, advanced_of};
ghost use Rattle.machine.specs.Fetch.{Coherent};
ghost use Rattle.machine.specs.Pairs.{with_pair_of};
ghost use Rattle.machine.specs.State.{machine_of};
ghost use Rattle.machine.specs.declared.Machine.{Machine};
ghost use Rattle.machine.specs.Steps.{progress_as, part_as, run_at, settled, requests_fit, steps_of};

use crate::advance::is_enabled;
use crate::pairs::{pair, with_pair};
use crate::run_step::advance;
use crate::{FlagPairs, Part, Report, RunProgress};
use alu::Flags;
use control::requests::requested;
use control::{Control, Mode};
use data::space::BANK;
use isa::rom::page_number;

// From so many steps on a run has a long store: to clear it costs as much as some sixty steps.
const LONG: u32 = 128;

// The request byte of a step: none past the list's end.
pub fn request_at(requests: &[u8], i: u32) -> u8
    ensures { result ≡ get_or requests.now i 0 }
{
    requests.get(i as usize).copied().unwrap_or(0)
}

// Whether the steps from the i-th on have the same bank byte and mode as those before.
fn stays(bytes: &[u8; 256], bank: u8, mode: Mode, before: Mode, i: u32, n: u32) -> bool
    ensures { result ≡ true → (i < n) × (mode ≡ before) × (get_or bytes.now 0xCA 0 ≡ bank) }
{
    i < n && bytes[BANK] == bank && mode == before
}

// The first step from the i-th on that is not idle, or the run's end. An idle step leaves the machine as it was, so of a
// sleeper's steps only the requests need be looked at.
fn past_idle(bytes: &[u8; 256], c: Control, requests: &[u8], i: u32, n: u32) -> u32
    requires { i ≤ n }
    ensures { (i ≤ result) × (result ≤ n)
        × ((image stack : List ℕ) (flags : FlagPairs) (k : ℕ) → i ≤ k → k < result
        → done_of (machine_of c stack flags bytes.now) 0
        ≡ advanced_of image (machine_of c stack flags bytes.now) (get_or requests.now k 0))
        × (result < n → c.asleep ≡ true
        → is_some (requested_of c.mode (enabled_of bytes.now) (get_or requests.now result 0)) ≡ true) }
{
    if !c.asleep {
        return i;
    }
    let enabled = is_enabled(bytes);
    for k in i..n {
        if requested(c.mode, enabled, request_at(requests, k)).is_some() {
            return k;
        }
    }
    n
}

// Steps from the first on, at least one, as long as the bank byte and the mode stay: the page is then a constant of the
// loop, and one flag pair is in use.
fn steps_in_mode(
    image: &[u8],
    store: &mut [u64],
    bytes: &mut [u8; 256],
    stack: &mut [u16; 6],
    start: Control,
    pair: Flags,
    requests: &[u8],
    first: u32,
    spent: u32,
    n: u32,
) -> Part
    requires { (n ≤ 65535) × (first < n) × (spent ≤ 255 * first) × IsImage image.now
        × (well_formed stack.old start ≡ true) × (requests_fit requests.now n ≡ true) × (0 < length store.old)
        × Coherent image.now store.old }
    ensures { ((pairs : FlagPairs) (m : Machine)
        → run_at (machine_of start stack.old (with_pair_of pairs start.mode pair) bytes.old)
        first spent (done tt) ≡ steps_of image.now requests.now m first
        → part_as pairs start.mode bytes.new stack.new result
        ≡ steps_of image.now requests.now m (settled result.report n))
        × (first < settled result.report n) × (settled result.report n ≤ n)
        × (result.report.cycles ≤ 255 * settled result.report n) × Coherent image.now store.new }
{
    let bank = bytes[BANK];
    let page = page_number(image.len(), bank);
    let mut c = start;
    let mut flags = pair;
    let mut cycles: u32 = spent;
    let mut i: u32 = first;
    let mut same = true;
    // No `for`: what each step leaves decides whether one more follows.
    while same {
        let after = advance(
            image,
            store,
            page,
            bytes,
            stack,
            c,
            flags,
            request_at(requests, i),
        );
        c = after.control;
        flags = after.flags;
        // A name of its own, by which the proof knows that a step's cycles are a byte.
        let answer = after.report;
        match answer {
            Ok(more) => cycles += more as u32,
            Err(reason) => {
                return Part {
                    control: c,
                    flags,
                    report: Report {
                        steps: i,
                        cycles,
                        ending: Err(reason),
                    },
                };
            }
        }
        i = past_idle(bytes, c, requests, i + 1, n);
        same = stays(bytes, bank, c.mode, start.mode, i, n);
    }
    Part {
        control: c,
        flags,
        report: Report {
            steps: i,
            cycles,
            ending: Ok(()),
        },
    }
}

// n steps in a row, or as many as complete, on lent bytes and stack.
fn all_steps(
    image: &[u8],
    store: &mut [u64],
    bytes: &mut [u8; 256],
    stack: &mut [u16; 6],
    start: Control,
    pairs: FlagPairs,
    requests: &[u8],
    n: u32,
) -> RunProgress
    requires { (n ≤ 65535) × IsImage image.now
        × (well_formed stack.old start ≡ true) × (requests_fit requests.now n ≡ true) × (0 < length store.old)
        × Coherent image.now store.old }
    ensures { progress_as bytes.new stack.new result
        ≡ steps_of image.now requests.now
        (machine_of start stack.old pairs bytes.old) n }
{
    let mut c = start;
    let mut flags = pairs;
    let mut cycles: u32 = 0;
    let mut i: u32 = 0;
    // No `for`: a turn makes as many steps as stay in one mode.
    while i < n {
        let mode = c.mode;
        let after = steps_in_mode(
            image,
            store,
            bytes,
            stack,
            c,
            pair(flags, mode),
            requests,
            i,
            cycles,
            n,
        );
        c = after.control;
        flags = with_pair(flags, mode, after.flags);
        let report = after.report;
        if report.ending.is_err() {
            return RunProgress {
                control: c,
                flags,
                report,
            };
        }
        i = report.steps;
        cycles = report.cycles;
    }
    RunProgress {
        control: c,
        flags,
        report: Report {
            steps: n,
            cycles,
            ending: Ok(()),
        },
    }
}

// The steps of a run on lent bytes and stack, with a store that has nothing yet.
pub fn by_store(
    image: &[u8],
    bytes: &mut [u8; 256],
    stack: &mut [u16; 6],
    c: Control,
    flags: FlagPairs,
    requests: &[u8],
    n: u32,
) -> RunProgress
    requires { (n ≤ 65535) × IsImage image.now × (well_formed stack.old c ≡ true)
        × (requests_fit requests.now n ≡ true) }
    ensures { progress_as bytes.new stack.new result
        ≡ steps_of image.now requests.now
        (machine_of c stack.old flags bytes.old) n }
{
    // Memory is fixed: the store is an array here, of one of two sizes.
    if n < LONG {
        let mut few = [0u64; 64];
        return all_steps(image, &mut few, bytes, stack, c, flags, requests, n);
    }
    let mut store = [0u64; 4096];
    all_steps(image, &mut store, bytes, stack, c, flags, requests, n)
}
