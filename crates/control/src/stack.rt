// The stack of return addresses: the one push and the one pop. The slots are lent; the levels in use stand in control.
ghost use Rattle.std.specs.Prelude.{◌≡◌, get_or};
ghost use Rattle.control.specs.Stack.{transfer_of, push_of, pop_of};

use crate::{Control, Stop};

// The levels of the stack.
pub const LEVELS: u8 = 6;

// The one push of a return address: a stop on six levels.
#[tactic(auto, unfolding(crate::specs::Stack::push_of))]
pub fn push(stack: &mut [u16; 6], c: Control, address: u16) -> Result<Control, Stop>
    ensures { transfer_of stack.new c result ≡ push_of stack.old c address }
{
    let levels = c.levels;
    if LEVELS <= levels {
        return Err(Stop::Full);
    }
    let top = levels as usize;
    stack[top] = address;
    Ok(c.with_levels(levels + 1))
}

// The return address in a slot.
fn slot(stack: &[u16], index: u8) -> u16
    ensures { result ≡ get_or stack.now index 0 }
{
    stack.get(index as usize).copied().unwrap_or(0)
}

// The one pop of a return address: a stop on an empty stack.
#[tactic(auto, unfolding(crate::specs::Stack::pop_of))]
pub fn pop(stack: &[u16; 6], c: Control) -> Result<Control, Stop>
    ensures { transfer_of stack.now c result ≡ pop_of stack.now c }
{
    let levels = c.levels;
    if levels == 0 {
        return Err(Stop::Empty);
    }
    let top = levels - 1;
    Ok(c.with_pc(slot(stack, top)).with_levels(top))
}
