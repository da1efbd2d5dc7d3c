// Where each kind of flow takes control, and what it does to the lent stack.
ghost use Rattle.std.specs.Prelude.{◌≡◌};
ghost use Rattle.control.specs.Stack.{transfer_of};
ghost use Rattle.control.specs.Update.{with_pc, with_mode};
ghost use Rattle.control.specs.Modes.{mode_beneath};
ghost use Rattle.control.specs.Transfers.{slept_of, branch_of, call_of, ends_start_up, return_from_interrupt_of};

use crate::modes::{beneath, is_reset};
use crate::stack::{pop, push};
use crate::{Control, Stop};

// Control asleep at the next address: STOP and WAIT.
#[tactic(auto, unfolding(crate::specs::Transfers::slept_of))]
pub fn sleep(c: Control, next: u16) -> Control
    ensures { result ≡ slept_of c next }
{
    c.with_pc(next).with_sleep(true)
}

// A branch: to its target where it jumps, else to the next address.
pub fn branch(c: Control, jumps: bool, to: u16, next: u16) -> Control
    ensures { result ≡ branch_of c jumps to next }
{
    if jumps {
        return c.with_pc(to);
    }
    c.with_pc(next)
}

// CALL pushes the next address: a stop on six levels.
#[tactic(auto, unfolding(crate::specs::Transfers::call_of))]
pub fn call(stack: &mut [u16; 6], c: Control, to: u16, next: u16) -> Result<Control, Stop>
    ensures { transfer_of stack.new (with_pc c to) result ≡ call_of stack.old c to next }
{
    let pushed = push(stack, c, next)?;
    Ok(pushed.with_pc(to))
}

// Whether RETI ends the start-up code: in reset mode, with an empty stack.
fn ends_start_up(c: Control) -> bool
    ensures { result ≡ ends_start_up c }
{
    c.levels == 0 && is_reset(c.mode)
}

// RETI: as RET, to the mode beneath; where it ends the start-up code, it goes on at the next address.
#[tactic(auto, unfolding(crate::specs::Transfers::return_from_interrupt_of))]
pub fn return_from_interrupt(stack: &[u16; 6], c: Control, next: u16) -> Result<Control, Stop>
    ensures { transfer_of stack.now (with_mode c (mode_beneath c.mode)) result
        ≡ return_from_interrupt_of stack.now c next }
{
    let under = beneath(c.mode);
    if ends_start_up(c) {
        return Ok(c.with_pc(next).with_mode(under));
    }
    let popped = pop(stack, c)?;
    Ok(popped.with_mode(under))
}
