// One instruction, decoded: its effect on the lent data bytes and stack, on the flag pair in use and on control.
ghost use Rattle.std.specs.Prelude.{◌≡◌, List, ℕ};
ghost use Rattle.isa.specs.Rom.{IsImage};
ghost use Rattle.data.specs.Space.{program_of};
ghost use Rattle.data.specs.Effect.{data_of, effect_of};
ghost use Rattle.control.specs.declared.Control.{Control};
ghost use Rattle.control.specs.Stack.{transfer_of, goes_on};
ghost use Rattle.control.specs.Update.{with_pc};
ghost use Rattle.machine.specs.Execute.{execution_of, execution_by, execute_of, left_of, left_by};

use crate::{Executed, Room};
use alu::Flags;
use control::stack::pop;
use control::transfers::{branch, call, return_from_interrupt, sleep};
use control::{Control, Stop};
use isa::Instruction;
use isa::displacement::{long_target, short_target};

// Control goes on.
pub fn goes_on(control: Control, flags: Flags) -> Executed
    ensures { (bytes stack : List ℕ) → execution_of bytes stack result
        ≡ execution_by (data_of bytes flags) (goes_on stack control) }
{
    Executed {
        control,
        flags,
        room: Room::Spare,
    }
}

// Control is transferred by way of the stack, unless that stops.
pub fn transferred(to: Result<Control, Stop>, flags: Flags) -> Result<Executed, Stop>
    ensures { (bytes stack : List ℕ) (c : Control) → left_of bytes stack result
        ≡ left_by (execution_by (data_of bytes flags) (transfer_of stack c to)) }
{
    Ok(goes_on(to?, flags))
}

// An instruction that goes on at the next address.
fn on_data(
    image: &[u8],
    bytes: &mut [u8; 256],
    c: Control,
    flags: Flags,
    instruction: Instruction,
    next: u16,
) -> Executed
    requires { IsImage image.now }
    ensures { (stack : List ℕ) → execution_of bytes.new stack result
        ≡ execution_by
        (effect_of (program_of image.now bytes.old) (data_of bytes.old flags) instruction)
        (goes_on stack (with_pc c next)) }
{
    let after = data::effect::effect(image, bytes, flags, instruction);
    goes_on(c.with_pc(next), after)
}

// An instruction at PC; `next` is the address after it.
pub fn execute(
    image: &[u8],
    bytes: &mut [u8; 256],
    stack: &mut [u16; 6],
    c: Control,
    flags: Flags,
    instruction: Instruction,
    next: u16,
) -> Result<Executed, Stop>
    requires { IsImage image.now }
    ensures { left_of bytes.new stack.new result
        ≡ left_by (execute_of (program_of image.now bytes.old) (data_of bytes.old flags)
        stack.old c instruction next) }
{
    match instruction {
        Instruction::Jrnz(d) => Ok(goes_on(
            branch(c, !flags.zero, short_target(c.pc, d), next),
            flags,
        )),
        Instruction::Jrnc(d) => Ok(goes_on(
            branch(c, !flags.carry, short_target(c.pc, d), next),
            flags,
        )),
        Instruction::Jrz(d) => Ok(goes_on(
            branch(c, flags.zero, short_target(c.pc, d), next),
            flags,
        )),
        Instruction::Jrc(d) => Ok(goes_on(
            branch(c, flags.carry, short_target(c.pc, d), next),
            flags,
        )),
        Instruction::Call(to) => transferred(call(stack, c, to, next), flags),
        Instruction::Jp(to) => Ok(goes_on(c.with_pc(to), flags)),
        Instruction::Jrr(bit, address, d) => {
            let after = data::effect::test_bit(image, bytes, flags.zero, address, bit);
            Ok(goes_on(branch(c, !after.carry, long_target(c.pc, d), next), after))
        }
        Instruction::Jrs(bit, address, d) => {
            let after = data::effect::test_bit(image, bytes, flags.zero, address, bit);
            Ok(goes_on(branch(c, after.carry, long_target(c.pc, d), next), after))
        }
        Instruction::Ret => transferred(pop(stack, c), flags),
        Instruction::Reti => transferred(return_from_interrupt(stack, c, next), flags),
        Instruction::Stop => Ok(goes_on(sleep(c, next), flags)),
        Instruction::Wait => Ok(goes_on(sleep(c, next), flags)),
        _ => Ok(on_data(image, bytes, c, flags, instruction, next)),
    }
}
