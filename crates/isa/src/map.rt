// From an opcode and its operand bytes to the instruction.
#![tactic(auto, unfolding(crate::specs::Map::form_of, crate::specs::Map::form_as, crate::specs::Map::entry_of))]

ghost use Rattle.std.specs.Prelude.{◌≡◌, ℕ, ◌%◌, ◌/◌};
ghost use Rattle.isa.specs.Map.{bit_number, extended, form_of, on_operand};

use crate::displacement::{long_displacement, short_displacement};
use crate::{Instruction, Operand};

// The bit number: the opcode's top three bits, reversed.
#[tactic(auto, using(crate::proofs::Reversed::number))]
pub fn bit_number(opcode: u8) -> u8
    ensures { result ≡ bit_number opcode }
{
    opcode.reverse_bits() % 8
}

// The 12-bit target: the opcode's high digit is its lowest digit.
pub fn extended_target(opcode: u8, first: u8) -> u16
    ensures { result ≡ extended opcode first }
{
    u16::from_le_bytes([opcode, first]) / 16
}

// The short register of an opcode of column 5 or D: X, Y, V, W by the quarter of the map.
fn short_register(opcode: u8) -> Operand
    ensures { result ≡ Operand.Short (opcode / 64) }
{
    Operand::Short(opcode / 64)
}

// The instruction on a data operand of an opcode of column 7 or F, by the pair of rows.
fn on_operand(opcode: u8, operand: Operand) -> Instruction
    ensures { result ≡ on_operand opcode operand }
{
    match opcode {
        0x00..=0x1F => Instruction::LoadA(operand),
        0x20..=0x3F => Instruction::Cp(operand),
        0x40..=0x5F => Instruction::Add(operand),
        0x60..=0x7F => Instruction::Inc(operand),
        0x80..=0x9F => Instruction::StoreA(operand),
        0xA0..=0xBF => Instruction::And(operand),
        0xC0..=0xDF => Instruction::Sub(operand),
        0xE0..=0xFF => Instruction::Dec(operand),
    }
}

// Column 5: INC and LD A with a short register.
fn column_5(opcode: u8) -> Option<Instruction>
    requires { opcode % 16 ≡ 5 }
    ensures { (first second : ℕ) → result ≡ form_of opcode first second }
{
    match opcode {
        0x15 | 0x55 | 0x95 | 0xD5 => Some(Instruction::Inc(short_register(opcode))),
        0x35 | 0x75 | 0xB5 | 0xF5 => Some(Instruction::LoadA(short_register(opcode))),
        _ => None,
    }
}

// Column 7: immediates, and operands through X.
fn column_7(opcode: u8, first: u8) -> Option<Instruction>
    requires { opcode % 16 ≡ 7 }
    ensures { (second : ℕ) → result ≡ form_of opcode first second }
{
    match opcode {
        0x17 => Some(Instruction::LoadAImmediate(first)),
        0x37 => Some(Instruction::CpImmediate(first)),
        0x57 => Some(Instruction::AddImmediate(first)),
        0xB7 => Some(Instruction::AndImmediate(first)),
        0xD7 => Some(Instruction::SubImmediate(first)),
        0x77 | 0x97 | 0xF7 => None,
        _ => Some(on_operand(opcode, Operand::ThroughX)),
    }
}

// Column D: DEC and LD from A with a short register, LDI and the inherent instructions.
fn column_d(opcode: u8, first: u8, second: u8) -> Option<Instruction>
    requires { opcode % 16 ≡ 13 }
    ensures { result ≡ form_of opcode first second }
{
    match opcode {
        0x1D | 0x5D | 0x9D | 0xDD => Some(Instruction::Dec(short_register(opcode))),
        0x3D | 0x7D | 0xBD | 0xFD => Some(Instruction::StoreA(short_register(opcode))),
        0x0D => Some(Instruction::LoadImmediate(first, second)),
        0x2D => Some(Instruction::Com),
        0x4D => Some(Instruction::Reti),
        0x6D => Some(Instruction::Stop),
        0xAD => Some(Instruction::Rlc),
        0xCD => Some(Instruction::Ret),
        0xED => Some(Instruction::Wait),
        _ => None,
    }
}

// Column F: operands through Y in the even rows, and direct in the others.
fn column_f(opcode: u8, first: u8) -> Option<Instruction>
    requires { opcode % 16 ≡ 15 }
    ensures { (second : ℕ) → result ≡ form_of opcode first second }
{
    match opcode {
        0x0F | 0x2F | 0x4F | 0x6F | 0x8F | 0xAF | 0xCF | 0xEF => {
            Some(on_operand(opcode, Operand::ThroughY))
        }
        _ => Some(on_operand(opcode, Operand::Direct(first))),
    }
}

// Column 3: JRR in the even rows, JRS in the odd ones.
fn column_3(opcode: u8, first: u8, second: u8) -> Option<Instruction>
    requires { opcode % 16 ≡ 3 }
    ensures { result ≡ form_of opcode first second }
{
    let bit = bit_number(opcode);
    let displacement = long_displacement(second);
    if opcode / 16 % 2 == 0 {
        Some(Instruction::Jrr(bit, first, displacement))
    } else {
        Some(Instruction::Jrs(bit, first, displacement))
    }
}

// Column B: RES in the even rows, SET in the odd ones.
fn column_b(opcode: u8, first: u8) -> Option<Instruction>
    requires { opcode % 16 ≡ 11 }
    ensures { (second : ℕ) → result ≡ form_of opcode first second }
{
    let bit = bit_number(opcode);
    if opcode / 16 % 2 == 0 {
        Some(Instruction::Res(bit, first))
    } else {
        Some(Instruction::Set(bit, first))
    }
}

// The instruction of an opcode with the two bytes that follow it; none of an undefined opcode.
pub fn form(opcode: u8, first: u8, second: u8) -> Option<Instruction>
    ensures { result ≡ form_of opcode first second }
{
    match opcode % 16 {
        0 | 8 => Some(Instruction::Jrnz(short_displacement(opcode))),
        2 | 10 => Some(Instruction::Jrnc(short_displacement(opcode))),
        4 | 12 => Some(Instruction::Jrz(short_displacement(opcode))),
        6 | 14 => Some(Instruction::Jrc(short_displacement(opcode))),
        1 => Some(Instruction::Call(extended_target(opcode, first))),
        9 => Some(Instruction::Jp(extended_target(opcode, first))),
        3 => column_3(opcode, first, second),
        5 => column_5(opcode),
        7 => column_7(opcode, first),
        11 => column_b(opcode, first),
        13 => column_d(opcode, first, second),
        _ => column_f(opcode, first),
    }
}
