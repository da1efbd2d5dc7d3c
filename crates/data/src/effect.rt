// What each instruction does to the lent data bytes, and the flags after it. Values come before the bytes, since they
// are read from them.
ghost use Rattle.std.specs.Prelude.{◌≡◌};
ghost use Rattle.isa.specs.Rom.{IsImage};
ghost use Rattle.data.specs.Space.{program_of};
ghost use Rattle.data.specs.Effect.{
  data_of,
  store_result_of,
  accumulator_of,
  load_of,
  store_a_of,
  increment_of,
  decrement_of,
  add_of,
  subtract_of,
  and_of,
  compare_of,
  complement_of,
  rotate_of,
  store_immediate_of,
  set_bit_of,
  reset_bit_of,
  test_bit_of,
  effect_of,
};

use crate::space::{A, address, operand, read, store};
use alu::{Flags, Outcome};
use isa::Instruction;

// The byte of the accumulator.
fn accumulator(bytes: &[u8; 256]) -> u8
    ensures { result ≡ accumulator_of bytes.now }
{
    bytes[A as usize]
}

// Stores a result, and hands over its flags. What follows names its operation each: one function that is given the
// operation would make none of it shorter.
#[tactic(auto, unfolding(crate::specs::Effect::store_result_of))]
fn store_result(bytes: &mut [u8; 256], address: u8, res: Outcome) -> Flags
    ensures { data_of bytes.new result ≡ store_result_of bytes.old address res }
{
    store(bytes, address, res.value);
    res.flags
}

// LD A and LDI A.
pub fn load(value: u8, bytes: &mut [u8; 256], carry: bool) -> Flags
    ensures { data_of bytes.new result ≡ load_of bytes.old carry value }
{
    store_result(bytes, A, alu::result(value, carry))
}

// LD of A to a data address.
pub fn store_a(address: u8, bytes: &mut [u8; 256], carry: bool) -> Flags
    ensures { data_of bytes.new result ≡ store_a_of bytes.old carry address }
{
    let result = alu::result(accumulator(bytes), carry);
    store_result(bytes, address, result)
}

// INC.
pub fn increment(image: &[u8], address: u8, bytes: &mut [u8; 256], carry: bool) -> Flags
    ensures { IsImage image.now
        → data_of bytes.new result
        ≡ increment_of (program_of image.now bytes.old) bytes.old carry address }
{
    let result = alu::incremented(read(image, bytes, address), carry);
    store_result(bytes, address, result)
}

// DEC.
pub fn decrement(image: &[u8], address: u8, bytes: &mut [u8; 256], carry: bool) -> Flags
    ensures { IsImage image.now
        → data_of bytes.new result
        ≡ decrement_of (program_of image.now bytes.old) bytes.old carry address }
{
    let result = alu::decremented(read(image, bytes, address), carry);
    store_result(bytes, address, result)
}

// ADD and ADDI.
pub fn add(value: u8, bytes: &mut [u8; 256]) -> Flags
    ensures { data_of bytes.new result ≡ add_of bytes.old value }
{
    let result = alu::added(accumulator(bytes), value);
    store_result(bytes, A, result)
}

// SUB and SUBI.
pub fn subtract(value: u8, bytes: &mut [u8; 256]) -> Flags
    ensures { data_of bytes.new result ≡ subtract_of bytes.old value }
{
    let result = alu::subtracted(accumulator(bytes), value);
    store_result(bytes, A, result)
}

// AND and ANDI.
pub fn and(value: u8, bytes: &mut [u8; 256], carry: bool) -> Flags
    ensures { data_of bytes.new result ≡ and_of bytes.old carry value }
{
    let result = alu::anded(accumulator(bytes), value, carry);
    store_result(bytes, A, result)
}

// CP and CPI: flags only.
pub fn compare(value: u8, bytes: &[u8; 256]) -> Flags
    ensures { result ≡ compare_of bytes.now value }
{
    let result = alu::subtracted(accumulator(bytes), value);
    result.flags
}

// COM.
pub fn complement(bytes: &mut [u8; 256]) -> Flags
    ensures { data_of bytes.new result ≡ complement_of bytes.old }
{
    let result = alu::complemented(accumulator(bytes));
    store_result(bytes, A, result)
}

// RLC.
pub fn rotate(bytes: &mut [u8; 256], carry: bool) -> Flags
    ensures { data_of bytes.new result ≡ rotate_of bytes.old carry }
{
    let result = alu::rotated(accumulator(bytes), carry);
    store_result(bytes, A, result)
}

// LDI of a data address: no flag changes.
pub fn store_immediate(bytes: &mut [u8; 256], flags: Flags, address: u8, value: u8) -> Flags
    ensures { data_of bytes.new result ≡ store_immediate_of bytes.old flags address value }
{
    store(bytes, address, value);
    flags
}

// SET: no flag changes.
pub fn set_bit(image: &[u8], bytes: &mut [u8; 256], flags: Flags, address: u8, bit: u8) -> Flags
    ensures { IsImage image.now
        → data_of bytes.new result
        ≡ set_bit_of (program_of image.now bytes.old) bytes.old flags address bit }
{
    let value = alu::with_bit(read(image, bytes, address), bit);
    store(bytes, address, value);
    flags
}

// RES: no flag changes.
pub fn reset_bit(image: &[u8], bytes: &mut [u8; 256], flags: Flags, address: u8, bit: u8) -> Flags
    ensures { IsImage image.now
        → data_of bytes.new result
        ≡ reset_bit_of (program_of image.now bytes.old) bytes.old flags address bit }
{
    let value = alu::without_bit(read(image, bytes, address), bit);
    store(bytes, address, value);
    flags
}

// JRR and JRS: the tested bit goes to C, jump or not.
pub fn test_bit(image: &[u8], bytes: &[u8; 256], zero: bool, address: u8, bit: u8) -> Flags
    ensures { IsImage image.now
        → result ≡ test_bit_of (program_of image.now bytes.now) bytes.now zero address bit }
{
    let carry = alu::bit(read(image, bytes, address), bit);
    Flags { zero, carry }
}

// An instruction's effect. Jumps on a flag, CALL, JP, returns, STOP and WAIT have none.
#[tactic(auto, unfolding(crate::specs::Effect::effect_of))]
pub fn effect(image: &[u8], bytes: &mut [u8; 256], flags: Flags, instruction: Instruction) -> Flags
    ensures { IsImage image.now
        → data_of bytes.new result
        ≡ effect_of (program_of image.now bytes.old) (data_of bytes.old flags)
        instruction }
{
    let carry = flags.carry;
    match instruction {
        Instruction::Jrr(bit, at, _) | Instruction::Jrs(bit, at, _) => {
            test_bit(image, bytes, flags.zero, at, bit)
        }
        Instruction::Res(bit, at) => reset_bit(image, bytes, flags, at, bit),
        Instruction::Set(bit, at) => set_bit(image, bytes, flags, at, bit),
        Instruction::LoadA(o) => load(operand(image, bytes, o), bytes, carry),
        Instruction::StoreA(o) => store_a(address(bytes, o), bytes, carry),
        Instruction::LoadAImmediate(value) => load(value, bytes, carry),
        Instruction::LoadImmediate(at, value) => store_immediate(bytes, flags, at, value),
        Instruction::Inc(o) => increment(image, address(bytes, o), bytes, carry),
        Instruction::Dec(o) => decrement(image, address(bytes, o), bytes, carry),
        Instruction::Add(o) => add(operand(image, bytes, o), bytes),
        Instruction::AddImmediate(value) => add(value, bytes),
        Instruction::Sub(o) => subtract(operand(image, bytes, o), bytes),
        Instruction::SubImmediate(value) => subtract(value, bytes),
        Instruction::And(o) => and(operand(image, bytes, o), bytes, carry),
        Instruction::AndImmediate(value) => and(value, bytes, carry),
        Instruction::Cp(o) => compare(operand(image, bytes, o), bytes),
        Instruction::CpImmediate(value) => compare(value, bytes),
        Instruction::Com => complement(bytes),
        Instruction::Rlc => rotate(bytes, carry),
        _ => flags,
    }
}
