// A single step: the instruction at PC is decoded once, for what it does and for what it reads. It goes by the
// instruction, since a number pays only where it is found again, as in a run.
ghost use Rattle.std.specs.Prelude.{◌≡◌, List, ℕ, None};
ghost use Rattle.isa.specs.Refusals.{numbered, answered};
ghost use Rattle.isa.specs.Rom.{IsImage};
ghost use Rattle.data.specs.Space.{program_of};
ghost use Rattle.machine.specs.Pairs.{with_pair_of};
ghost use Rattle.machine.specs.State.{machine_of};
ghost use Rattle.machine.specs.Actions.{refuses, action_as, action_of};
ghost use Rattle.machine.specs.Advance.{advanced_as, refused_of, executed_of, acted_of};
ghost use Rattle.machine.specs.Step.{stepped_of, step_progress_as, step_of};
ghost use Rattle.machine.specs.Operands.{action_read, read_if_done, step_read_of};

use crate::actions::due;
use crate::advance::{done, stop_at, stopped, taken};
use crate::execute::execute;
use crate::pairs::{pair, with_pair};
use crate::{Action, Advanced, Executed, FlagPairs, Machine, StepProgress, StepReport, Stepped};
use alu::Flags;
use control::Control;
use control::well_formed::is_well_formed;
use data::Origin;
use data::reads::origin_read;
use isa::displacement::forward;
use isa::rom::is_image_length;
use isa::sources::names_only_sources;
use isa::{Decoded, Refusal};

// A step that is refused or stops reads no operand.
fn read_if_done(answer: Result<u8, Refusal>, read: Option<Origin>) -> Option<Origin>
    ensures { result ≡ read_if_done (answered answer) read }
{
    match answer {
        Ok(_) => read,
        Err(_) => None,
    }
}

// The end of a step: the flag pair of the mode before it is put back among the pairs, and the operand is read if the
// step is done.
fn ended(
    pairs: FlagPairs,
    c: Control,
    after: Advanced,
    read: Option<Origin>,
    action: Action,
) -> StepProgress
    ensures { ((bytes stack : List ℕ)
        → step_progress_as bytes stack result ≡ advanced_as pairs c.mode bytes stack after)
        × (result.report.read ≡ read_if_done (answered result.report.answer) read) × (result.report.action ≡ action) }
{
    let answer = after.report;
    StepProgress {
        control: after.control,
        flags: with_pair(pairs, c.mode, after.flags),
        report: StepReport {
            answer,
            read: read_if_done(answer, read),
            action,
        },
    }
}

// An instruction: where it stops, control and flags are as they were.
fn executed(
    image: &[u8],
    bytes: &mut [u8; 256],
    stack: &mut [u16; 6],
    c: Control,
    flags: Flags,
    decoded: Decoded,
) -> Advanced
    requires { IsImage image.now }
    ensures { (pairs : FlagPairs) → advanced_as pairs c.mode bytes.new stack.new result
        ≡ executed_of (program_of image.now bytes.old)
        (machine_of c stack.old (with_pair_of pairs c.mode flags) bytes.old)
        decoded.instruction decoded.length decoded.cycles }
{
    let next = forward(c.pc, decoded.length);
    match execute(image, bytes, stack, c, flags, decoded.instruction, next) {
        Ok(
            Executed {
                control,
                flags: left,
                room: _,
            },
        ) => done(control, left, decoded.cycles),
        Err(stop) => stopped(c, flags, stop_at(stop, c.pc)),
    }
}

// What comes of an action; an instruction is asked for what it reads before it is executed.
fn act(
    image: &[u8],
    bytes: &mut [u8; 256],
    stack: &mut [u16; 6],
    c: Control,
    pairs: FlagPairs,
    action: Action,
) -> StepProgress
    requires { IsImage image.now }
    ensures { (step_progress_as bytes.new stack.new result
        ≡ acted_of (program_of image.now bytes.old)
        (machine_of c stack.old pairs bytes.old) (action_as action))
        × (result.report.read ≡ read_if_done (answered result.report.answer)
        (action_read (program_of image.now bytes.old) bytes.old (action_as action)))
        × (result.report.action ≡ action) }
{
    let flags = pair(pairs, c.mode);
    match action {
        Action::Takes(source) => {
            let after = taken(stack, c, flags, source);
            ended(pairs, c, after, None, action)
        }
        Action::Idles => {
            let after = done(c, flags, 0);
            ended(pairs, c, after, None, action)
        }
        Action::Executes(decoded) => {
            let read = origin_read(image, bytes, decoded.instruction);
            let after = executed(image, bytes, stack, c, flags, decoded);
            ended(pairs, c, after, read, action)
        }
        Action::Refused(reason) => {
            let after = stopped(c, flags, reason);
            ended(pairs, c, after, None, action)
        }
    }
}

fn refused_step(control: Control, flags: FlagPairs, reason: Refusal) -> StepProgress
    ensures { ((bytes stack : List ℕ)
        → step_progress_as bytes stack result ≡ refused_of (machine_of control stack flags bytes) (numbered reason))
        × (result.report.read ≡ None) × (action_as result.report.action ≡ refuses (numbered reason)) }
{
    StepProgress {
        control,
        flags,
        report: StepReport {
            answer: Err(reason),
            read: None,
            action: Action::Refused(reason),
        },
    }
}

// One step on lent data bytes and a lent stack, what it read, and what it was about to do. Refuses with 1, 2, then 11.
pub fn step_lent(
    image: &[u8],
    bytes: &mut [u8; 256],
    stack: &mut [u16; 6],
    c: Control,
    flags: FlagPairs,
    request: u8,
) -> StepProgress
    ensures { (step_progress_as bytes.new stack.new result
        ≡ step_of image.now (machine_of c stack.old flags bytes.old) request)
        × (result.report.read
        ≡ step_read_of image.now (machine_of c stack.old flags bytes.old) request)
        × (action_as result.report.action
        ≡ action_of image.now (machine_of c stack.old flags bytes.old) request) }
{
    if !is_image_length(image.len()) {
        return refused_step(c, flags, Refusal::ImageLength);
    }
    if !is_well_formed(stack, c) {
        return refused_step(c, flags, Refusal::IllFormedMachine);
    }
    if !names_only_sources(request) {
        return refused_step(c, flags, Refusal::UnknownSource);
    }
    let action = due(image, bytes, c, request);
    act(image, bytes, stack, c, flags, action)
}

// One step of a machine, what it read, and what it was about to do.
pub fn step(image: &[u8], m: Machine, request: u8) -> Stepped
    ensures { (stepped_of result ≡ step_of image.now m request)
        × (result.report.read ≡ step_read_of image.now m request)
        × (action_as result.report.action ≡ action_of image.now m request) }
{
    let mut bytes = m.bytes;
    let mut stack = m.stack;
    let after = step_lent(image, &mut bytes, &mut stack, m.control, m.flags, request);
    Stepped {
        machine: Machine {
            control: after.control,
            stack,
            flags: after.flags,
            bytes,
        },
        report: after.report,
    }
}
