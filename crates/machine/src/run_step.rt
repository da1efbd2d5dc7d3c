// One step of a run, that is not refused: a request, sleep, or an instruction from the lent store of predecoded ones.
ghost use Rattle.std.specs.Prelude.{◌≡◌, ◌<◌, length};
ghost use Rattle.isa.specs.Lengths.{length_of};
ghost use Rattle.isa.specs.Predecoded.{instruction_of_word, cycles_of_word};
ghost use Rattle.isa.specs.Rom.{IsImage};
ghost use Rattle.data.specs.Space.{program_of};
ghost use Rattle.machine.specs.declared.FlagPairs.{FlagPairs};
ghost use Rattle.machine.specs.Pairs.{with_pair_of};
ghost use Rattle.machine.specs.Fetch.{Coherent, InPlace};
ghost use Rattle.machine.specs.State.{machine_of};
ghost use Rattle.machine.specs.Actions.{unrequested_action};
ghost use Rattle.machine.specs.Advance.{advanced_as, executed_of, acted_of, advanced_of};

use crate::advance::{done, is_enabled, stop_at, stopped, taken};
use crate::execute_word::execute_word;
use crate::fetch::fetch;
use crate::{Advanced, Executed};
use alu::Flags;
use control::Control;
use control::requests::requested;
use isa::predecoded::cycles_in;

// The instruction of a number: where it stops, control and flags are as they were. The match on its stop stands here,
// as it does in the single step: an end handed on as a struct costs a run a quarter of its time.
fn executed(
    image: &[u8],
    bytes: &mut [u8; 256],
    stack: &mut [u16; 6],
    c: Control,
    flags: Flags,
    word: u64,
) -> Advanced
    requires { IsImage image.now }
    ensures { (pairs : FlagPairs) → advanced_as pairs c.mode bytes.new stack.new result
        ≡ executed_of (program_of image.now bytes.old)
        (machine_of c stack.old (with_pair_of pairs c.mode flags) bytes.old)
        (instruction_of_word word) (length_of (instruction_of_word word)) (cycles_of_word word) }
{
    match execute_word(image, bytes, stack, c, flags, word) {
        Ok(
            Executed {
                control,
                flags: left,
                room: _,
            },
        ) => done(control, left, cycles_in(word)),
        Err(stop) => stopped(c, flags, stop_at(stop, c.pc)),
    }
}

// A step that takes no request, with the number of the page in place: idle asleep, else the instruction at PC.
// Decoding's refusals are stops.
fn uninterrupted(
    image: &[u8],
    store: &mut [u64],
    page: u8,
    bytes: &mut [u8; 256],
    stack: &mut [u16; 6],
    c: Control,
    flags: Flags,
) -> Advanced
    requires { IsImage image.now × (c.pc < 4096) × (0 < length store.old)
        × Coherent image.now store.old × InPlace image.now bytes.old page }
    ensures { ((pairs : FlagPairs) → advanced_as pairs c.mode bytes.new stack.new result
        ≡ acted_of (program_of image.now bytes.old)
        (machine_of c stack.old (with_pair_of pairs c.mode flags) bytes.old)
        (unrequested_action (program_of image.now bytes.old) c))
        × Coherent image.now store.new }
{
    if c.asleep {
        return done(c, flags, 0);
    }
    match fetch(image, store, page, c.pc) {
        Ok(word) => executed(image, bytes, stack, c, flags, word),
        Err(reason) => stopped(c, flags, reason),
    }
}

// One step, by its request byte.
#[tactic(auto, unfolding(crate::specs::Actions::due_of, crate::specs::Advance::acted_of, crate::specs::Advance::advanced_of))]
pub fn advance(
    image: &[u8],
    store: &mut [u64],
    page: u8,
    bytes: &mut [u8; 256],
    stack: &mut [u16; 6],
    c: Control,
    flags: Flags,
    request: u8,
) -> Advanced
    requires { IsImage image.now × (c.pc < 4096) × (0 < length store.old)
        × Coherent image.now store.old × InPlace image.now bytes.old page }
    ensures { ((pairs : FlagPairs) → advanced_as pairs c.mode bytes.new stack.new result
        ≡ advanced_of (program_of image.now bytes.old)
        (machine_of c stack.old (with_pair_of pairs c.mode flags) bytes.old) request)
        × Coherent image.now store.new }
{
    match requested(c.mode, is_enabled(bytes), request) {
        Some(source) => taken(stack, c, flags, source),
        None => uninterrupted(image, store, page, bytes, stack, c, flags),
    }
}
