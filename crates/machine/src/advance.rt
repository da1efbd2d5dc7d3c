// How a step ends that is not refused: done, stopped, or with a request taken. Of the flags a step knows the pair in
// use; the data bytes and the stack are lent.
ghost use Rattle.std.specs.Prelude.{◌≡◌, List, ℕ};
ghost use Rattle.isa.specs.Refusals.{numbered};
ghost use Rattle.control.specs.declared.Mode.{Mode};
ghost use Rattle.machine.specs.declared.FlagPairs.{FlagPairs};
ghost use Rattle.machine.specs.Pairs.{with_pair_of};
ghost use Rattle.machine.specs.State.{machine_of};
ghost use Rattle.machine.specs.Actions.{enabled_of};
ghost use Rattle.machine.specs.Advance.{advanced_as, stop_at, done_of, refused_of, taken_of};

use crate::Advanced;
use alu::Flags;
use control::requests::take;
use control::{Control, Stop};
use data::space::INTERRUPT_OPTION;
use isa::{Refusal, Source};

// The refusal of a stop, with PC.
pub fn stop_at(stop: Stop, pc: u16) -> Refusal
    ensures { numbered result ≡ stop_at stop pc }
{
    match stop {
        Stop::Full => Refusal::StackFull(pc),
        Stop::Empty => Refusal::StackEmpty(pc),
    }
}

// A completed step. This and `stopped` differ in Ok and Err alone: given the report, one for both would have each call
// write these.
pub fn done(control: Control, flags: Flags, cycles: u8) -> Advanced
    ensures { (bytes stack : List ℕ) (pairs : FlagPairs) (mode : Mode) → advanced_as pairs mode bytes stack result
        ≡ done_of (machine_of control stack (with_pair_of pairs mode flags) bytes) cycles }
{
    Advanced {
        control,
        flags,
        report: Ok(cycles),
    }
}

// A stop: control and flags as they were.
pub fn stopped(control: Control, flags: Flags, reason: Refusal) -> Advanced
    ensures { (bytes stack : List ℕ) (pairs : FlagPairs) (mode : Mode) → advanced_as pairs mode bytes stack result
        ≡ refused_of (machine_of control stack (with_pair_of pairs mode flags) bytes) (numbered reason) }
{
    Advanced {
        control,
        flags,
        report: Err(reason),
    }
}

// A request is taken, in one cycle: a stop on six levels gives PC.
pub fn taken(stack: &mut [u16; 6], c: Control, flags: Flags, source: Source) -> Advanced
    ensures { (bytes : List ℕ) (pairs : FlagPairs) → advanced_as pairs c.mode bytes stack.new result
        ≡ taken_of (machine_of c stack.old (with_pair_of pairs c.mode flags) bytes) source }
{
    match take(stack, c, source) {
        Ok(control) => done(control, flags, 1),
        Err(stop) => stopped(c, flags, stop_at(stop, c.pc)),
    }
}

// Bit 4 of 0C8h enables sources 1 to 4: of the byte stored there, which a program cannot read.
pub fn is_enabled(bytes: &[u8; 256]) -> bool
    ensures { result ≡ enabled_of bytes.now }
{
    alu::bit(bytes[INTERRUPT_OPTION], 4)
}
