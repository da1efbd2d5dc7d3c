// Predecoded instructions: an instruction as a number, for a store of those that were decoded already. From the lowest
// on a byte each has the code, the cycles (a digit, as in the table) and three operands; above them stands the tag, the
// bank byte and the address with which it was decoded, and a bit that says that there is one. A code is a form with the
// kind of its operand; the codes below 12 are those of the instructions that may go elsewhere than to the next address.
ghost use Rattle.std.specs.Prelude.{◌≡◌, ◌%◌, ◌/◌, ◌+◌, ◌*◌, ◌<◌, ◌≤◌, eqb, ltb};
ghost use Rattle.isa.specs.Predecoded.{
  instruction_by_code,
  on_operand_by_code,
  instruction_of_word,
  cycles_of_word,
  IsWord,
  tag_for,
  tag_of_word,
  Predecoded,
};

use crate::displacement::{long_byte, long_displacement};
use crate::{Instruction, Operand};

// The first code of an instruction that goes on at the next address.
const FIRST_OPERATION: u64 = 12;

// The number of a code with its cycles and operands.
fn word(code: u8, cycles: u8, a: u8, b: u8, c: u8) -> u64
    ensures { IsWord result (instruction_by_code code a b c) cycles }
{
    u64::from_le_bytes([code, cycles, a, b, c, 0, 0, 0])
}

// The number of a code that has an operand: the code with its kind.
fn on(code: u8, cycles: u8, operand: Operand) -> u64
    requires { code < 252 }
    ensures { IsWord result (on_operand_by_code code operand) cycles }
{
    match operand {
        Operand::Direct(a) => word(code, cycles, a, 0, 0),
        Operand::Short(n) => word(code + 1, cycles, n, 0, 0),
        Operand::ThroughX => word(code + 2, cycles, 0, 0, 0),
        Operand::ThroughY => word(code + 3, cycles, 0, 0, 0),
    }
}

// The number of an instruction.
#[tactic(auto, unfolding(crate::specs::Predecoded::instruction_by_code))]
fn word_of(instruction: Instruction, cycles: u8) -> u64
    ensures { IsWord result instruction cycles }
{
    match instruction {
        Instruction::Jrnz(d) => word(0, cycles, long_byte(d), 0, 0),
        Instruction::Jrnc(d) => word(1, cycles, long_byte(d), 0, 0),
        Instruction::Jrz(d) => word(2, cycles, long_byte(d), 0, 0),
        Instruction::Jrc(d) => word(3, cycles, long_byte(d), 0, 0),
        Instruction::Call(to) => {
            let [low, high] = to.to_le_bytes();
            word(4, cycles, low, high, 0)
        }
        Instruction::Jp(to) => {
            let [low, high] = to.to_le_bytes();
            word(5, cycles, low, high, 0)
        }
        Instruction::Jrr(bit, at, d) => word(6, cycles, bit, at, long_byte(d)),
        Instruction::Jrs(bit, at, d) => word(7, cycles, bit, at, long_byte(d)),
        Instruction::Res(first, second) => word(12, cycles, first, second, 0),
        Instruction::Set(first, second) => word(13, cycles, first, second, 0),
        Instruction::LoadA(o) => on(14, cycles, o),
        Instruction::StoreA(o) => on(18, cycles, o),
        Instruction::LoadAImmediate(value) => word(22, cycles, value, 0, 0),
        Instruction::LoadImmediate(first, second) => word(23, cycles, first, second, 0),
        Instruction::Inc(o) => on(24, cycles, o),
        Instruction::Dec(o) => on(28, cycles, o),
        Instruction::Add(o) => on(32, cycles, o),
        Instruction::AddImmediate(value) => word(36, cycles, value, 0, 0),
        Instruction::Sub(o) => on(37, cycles, o),
        Instruction::SubImmediate(value) => word(41, cycles, value, 0, 0),
        Instruction::And(o) => on(42, cycles, o),
        Instruction::AndImmediate(value) => word(46, cycles, value, 0, 0),
        Instruction::Cp(o) => on(47, cycles, o),
        Instruction::CpImmediate(value) => word(51, cycles, value, 0, 0),
        Instruction::Com => word(52, cycles, 0, 0, 0),
        Instruction::Rlc => word(53, cycles, 0, 0, 0),
        Instruction::Ret => word(8, cycles, 0, 0, 0),
        Instruction::Reti => word(9, cycles, 0, 0, 0),
        Instruction::Stop => word(10, cycles, 0, 0, 0),
        Instruction::Wait => word(11, cycles, 0, 0, 0),
    }
}

// The tag of a bank byte and an address.
fn tag(bank: u8, address: u16) -> u64
    ensures { (result ≡ tag_for bank address) × (result < 16777216) }
{
    0x100000 + bank as u64 * 0x1000 + address as u64
}

// The number of an instruction that was decoded with a bank byte at an address.
pub fn predecode(instruction: Instruction, cycles: u8, bank: u8, address: u16) -> u64
    ensures { Predecoded result instruction cycles bank address }
{
    tag(bank, address) * 0x10000000000 + word_of(instruction, cycles)
}

// Whether a number was decoded with this bank byte at this address.
pub fn has_tag(word: u64, bank: u8, address: u16) -> bool
    ensures { result ≡ eqb (tag_of_word word) (tag_for bank address) }
{
    word / 0x10000000000 == tag(bank, address)
}

// The cycles of a number's instruction.
pub fn cycles_in(word: u64) -> u8
    ensures { result ≡ cycles_of_word word }
{
    (word / 0x100 % 16) as u8
}

// Whether a number's instruction may go elsewhere than to the next address.
pub fn is_transfer(word: u64) -> bool
    ensures { result ≡ ltb (word % 256) 12 }
{
    word % 0x100 < FIRST_OPERATION
}

// The instruction of a number, where it may go elsewhere.
#[tactic(auto, unfolding(crate::specs::Predecoded::instruction_by_code))]
pub fn transfer_in(word: u64) -> Instruction
    ensures { word % 256 < 12 → result ≡ instruction_of_word word }
{
    let [code, _, a, b, c, ..] = word.to_le_bytes();
    match code {
        0 => Instruction::Jrnz(long_displacement(a)),
        1 => Instruction::Jrnc(long_displacement(a)),
        2 => Instruction::Jrz(long_displacement(a)),
        3 => Instruction::Jrc(long_displacement(a)),
        4 => Instruction::Call(u16::from_le_bytes([a, b])),
        5 => Instruction::Jp(u16::from_le_bytes([a, b])),
        6 => Instruction::Jrr(a, b, long_displacement(c)),
        7 => Instruction::Jrs(a, b, long_displacement(c)),
        8 => Instruction::Ret,
        9 => Instruction::Reti,
        10 => Instruction::Stop,
        _ => Instruction::Wait,
    }
}

// The instruction of a number, where it goes on at the next address. One match, though it is long: in two functions it
// costs a run one more jump in each step, 4 % of its time.
#[tactic(auto, unfolding(crate::specs::Predecoded::instruction_by_code))]
pub fn operation_in(word: u64) -> Instruction
    ensures { 12 ≤ word % 256 → result ≡ instruction_of_word word }
{
    let [code, _, a, b, ..] = word.to_le_bytes();
    match code {
        12 => Instruction::Res(a, b),
        13 => Instruction::Set(a, b),
        14 => Instruction::LoadA(Operand::Direct(a)),
        15 => Instruction::LoadA(Operand::Short(a)),
        16 => Instruction::LoadA(Operand::ThroughX),
        17 => Instruction::LoadA(Operand::ThroughY),
        18 => Instruction::StoreA(Operand::Direct(a)),
        19 => Instruction::StoreA(Operand::Short(a)),
        20 => Instruction::StoreA(Operand::ThroughX),
        21 => Instruction::StoreA(Operand::ThroughY),
        22 => Instruction::LoadAImmediate(a),
        23 => Instruction::LoadImmediate(a, b),
        24 => Instruction::Inc(Operand::Direct(a)),
        25 => Instruction::Inc(Operand::Short(a)),
        26 => Instruction::Inc(Operand::ThroughX),
        27 => Instruction::Inc(Operand::ThroughY),
        28 => Instruction::Dec(Operand::Direct(a)),
        29 => Instruction::Dec(Operand::Short(a)),
        30 => Instruction::Dec(Operand::ThroughX),
        31 => Instruction::Dec(Operand::ThroughY),
        32 => Instruction::Add(Operand::Direct(a)),
        33 => Instruction::Add(Operand::Short(a)),
        34 => Instruction::Add(Operand::ThroughX),
        35 => Instruction::Add(Operand::ThroughY),
        36 => Instruction::AddImmediate(a),
        37 => Instruction::Sub(Operand::Direct(a)),
        38 => Instruction::Sub(Operand::Short(a)),
        39 => Instruction::Sub(Operand::ThroughX),
        40 => Instruction::Sub(Operand::ThroughY),
        41 => Instruction::SubImmediate(a),
        42 => Instruction::And(Operand::Direct(a)),
        43 => Instruction::And(Operand::Short(a)),
        44 => Instruction::And(Operand::ThroughX),
        45 => Instruction::And(Operand::ThroughY),
        46 => Instruction::AndImmediate(a),
        47 => Instruction::Cp(Operand::Direct(a)),
        48 => Instruction::Cp(Operand::Short(a)),
        49 => Instruction::Cp(Operand::ThroughX),
        50 => Instruction::Cp(Operand::ThroughY),
        51 => Instruction::CpImmediate(a),
        52 => Instruction::Com,
        _ => Instruction::Rlc,
    }
}
