// One instruction, predecoded: its effect on the lent data bytes and stack, on the flag pair in use and on control. For
// the steps of a run. Each match here is on what one match makes of the number, so that both become one jump; and the
// length is a constant of the arm, so that the next address does not wait for the number.
ghost use Rattle.std.specs.Prelude.{◌≡◌, List, ℕ, ◌%◌, ◌<◌, ◌≤◌};
ghost use Rattle.isa.specs.Displacement.{forward_of, short_target, long_target};
ghost use Rattle.isa.specs.Lengths.{length_with, length_of};
ghost use Rattle.isa.specs.Predecoded.{instruction_of_word};
ghost use Rattle.isa.specs.Rom.{IsImage};
ghost use Rattle.data.specs.Space.{program_of};
ghost use Rattle.data.specs.Effect.{data_of, effect_of};
ghost use Rattle.control.specs.Stack.{goes_on};
ghost use Rattle.control.specs.Transfers.{branch_of};
ghost use Rattle.control.specs.Update.{with_pc};
ghost use Rattle.machine.specs.Execute.{execution_of, execution_by, execute_of, left_of, left_by};

use crate::Executed;
use crate::execute::{goes_on, transferred};
use alu::Flags;
use control::stack::pop;
use control::transfers::{branch, call, return_from_interrupt, sleep};
use control::{Control, Stop};
use data::effect::{
    add, and, compare, complement, decrement, increment, load, reset_bit, rotate, set_bit, store_a,
    store_immediate, subtract, test_bit,
};
use data::space::{X, Y, address_by, operand_by};
use isa::displacement::{forward, long_target, short_target};
use isa::lengths::length_with;
use isa::predecoded::{is_transfer, operation_in, transfer_in};
use isa::{Instruction, Operand};

// Goes on past an instruction of this length.
fn past(c: Control, length: u8, flags: Flags) -> Executed
    ensures { (bytes stack : List ℕ) → execution_of bytes stack result
        ≡ execution_by (data_of bytes flags) (goes_on stack (with_pc c (forward_of c.pc length))) }
{
    let next = forward(c.pc, length);
    goes_on(c.with_pc(next), flags)
}

// Goes on past an instruction on a data operand.
fn past_on(c: Control, operand: Operand, flags: Flags) -> Executed
    ensures { (bytes stack : List ℕ) → execution_of bytes stack result
        ≡ execution_by (data_of bytes flags) (goes_on stack (with_pc c (forward_of c.pc (length_with operand)))) }
{
    past(c, length_with(operand), flags)
}

// A jump on a flag. This and `long` stay two functions: one for both, given target and length, would make each call
// longer.
fn short(c: Control, jumps: bool, d: i8, flags: Flags) -> Executed
    ensures { (bytes stack : List ℕ) → execution_of bytes stack result
        ≡ execution_by (data_of bytes flags)
        (goes_on stack (branch_of c jumps (short_target c.pc d) (forward_of c.pc 1))) }
{
    goes_on(
        branch(c, jumps, short_target(c.pc, d), forward(c.pc, 1)),
        flags,
    )
}

// A jump on a bit.
fn long(c: Control, jumps: bool, d: i8, flags: Flags) -> Executed
    ensures { (bytes stack : List ℕ) → execution_of bytes stack result
        ≡ execution_by (data_of bytes flags)
        (goes_on stack (branch_of c jumps (long_target c.pc d) (forward_of c.pc 3))) }
{
    goes_on(
        branch(c, jumps, long_target(c.pc, d), forward(c.pc, 3)),
        flags,
    )
}

// An instruction that may go elsewhere than to the next address.
fn on_transfer(
    image: &[u8],
    bytes: &[u8; 256],
    stack: &mut [u16; 6],
    c: Control,
    flags: Flags,
    word: u64,
) -> Result<Executed, Stop>
    requires { IsImage image.now × (word % 256 < 12) }
    ensures { left_of bytes.now stack.new result
        ≡ left_by (execute_of (program_of image.now bytes.now) (data_of bytes.now flags)
        stack.old c (instruction_of_word word) (forward_of c.pc (length_of (instruction_of_word word)))) }
{
    match transfer_in(word) {
        Instruction::Jrnz(d) => Ok(short(c, !flags.zero, d, flags)),
        Instruction::Jrnc(d) => Ok(short(c, !flags.carry, d, flags)),
        Instruction::Jrz(d) => Ok(short(c, flags.zero, d, flags)),
        Instruction::Jrc(d) => Ok(short(c, flags.carry, d, flags)),
        Instruction::Call(to) => transferred(call(stack, c, to, forward(c.pc, 2)), flags),
        Instruction::Jp(to) => Ok(goes_on(c.with_pc(to), flags)),
        Instruction::Jrr(bit, address, d) => {
            let after = test_bit(image, bytes, flags.zero, address, bit);
            Ok(long(c, !after.carry, d, after))
        }
        Instruction::Jrs(bit, address, d) => {
            let after = test_bit(image, bytes, flags.zero, address, bit);
            Ok(long(c, after.carry, d, after))
        }
        Instruction::Ret => transferred(pop(stack, c), flags),
        Instruction::Reti => transferred(return_from_interrupt(stack, c, forward(c.pc, 1)), flags),
        Instruction::Stop => Ok(goes_on(sleep(c, forward(c.pc, 1)), flags)),
        Instruction::Wait => Ok(goes_on(sleep(c, forward(c.pc, 1)), flags)),
        // No other has such a number.
        _ => Ok(goes_on(c, flags)),
    }
}

// An instruction that goes on at the next address. X and Y are read first, whether the operand is through them or not:
// the compiler would make of two reads in two arms one read at an address chosen before the jump.
fn on_operation(
    image: &[u8],
    bytes: &mut [u8; 256],
    c: Control,
    flags: Flags,
    word: u64,
) -> Executed
    requires { IsImage image.now × (12 ≤ word % 256) }
    ensures { (stack : List ℕ) → execution_of bytes.new stack result
        ≡ execution_by
        (effect_of (program_of image.now bytes.old) (data_of bytes.old flags)
        (instruction_of_word word))
        (goes_on stack (with_pc c (forward_of c.pc (length_of (instruction_of_word word))))) }
{
    let carry = flags.carry;
    let x = bytes[X];
    let y = bytes[Y];
    match operation_in(word) {
        Instruction::Res(bit, at) => past(c, 2, reset_bit(image, bytes, flags, at, bit)),
        Instruction::Set(bit, at) => past(c, 2, set_bit(image, bytes, flags, at, bit)),
        Instruction::LoadA(o) => past_on(
            c,
            o,
            load(operand_by(image, bytes, x, y, o), bytes, carry),
        ),
        Instruction::StoreA(o) => past_on(c, o, store_a(address_by(x, y, o), bytes, carry)),
        Instruction::LoadAImmediate(value) => past(c, 2, load(value, bytes, carry)),
        Instruction::LoadImmediate(at, value) => past(
            c,
            3,
            store_immediate(bytes, flags, at, value),
        ),
        Instruction::Inc(o) => past_on(c, o, increment(image, address_by(x, y, o), bytes, carry)),
        Instruction::Dec(o) => past_on(c, o, decrement(image, address_by(x, y, o), bytes, carry)),
        Instruction::Add(o) => past_on(c, o, add(operand_by(image, bytes, x, y, o), bytes)),
        Instruction::AddImmediate(value) => past(c, 2, add(value, bytes)),
        Instruction::Sub(o) => past_on(c, o, subtract(operand_by(image, bytes, x, y, o), bytes)),
        Instruction::SubImmediate(value) => past(c, 2, subtract(value, bytes)),
        Instruction::And(o) => past_on(c, o, and(operand_by(image, bytes, x, y, o), bytes, carry)),
        Instruction::AndImmediate(value) => past(c, 2, and(value, bytes, carry)),
        Instruction::Cp(o) => past_on(c, o, compare(operand_by(image, bytes, x, y, o), bytes)),
        Instruction::CpImmediate(value) => past(c, 2, compare(value, bytes)),
        Instruction::Com => past(c, 1, complement(bytes)),
        Instruction::Rlc => past(c, 1, rotate(bytes, carry)),
        // No other has such a number.
        _ => goes_on(c, flags),
    }
}

// The instruction of a number, at PC.
pub fn execute_word(
    image: &[u8],
    bytes: &mut [u8; 256],
    stack: &mut [u16; 6],
    c: Control,
    flags: Flags,
    word: u64,
) -> Result<Executed, Stop>
    requires { IsImage image.now }
    ensures { left_of bytes.new stack.new result
        ≡ left_by (execute_of (program_of image.now bytes.old) (data_of bytes.old flags)
        stack.old c (instruction_of_word word) (forward_of c.pc (length_of (instruction_of_word word)))) }
{
    if is_transfer(word) {
        return on_transfer(image, bytes, stack, c, flags, word);
    }
    Ok(on_operation(image, bytes, c, flags, word))
}
