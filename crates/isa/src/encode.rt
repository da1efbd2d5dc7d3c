// From an instruction to its bytes: none where an operand lies beyond its field or is of a kind that the map lacks.
ghost use Rattle.std.specs.Prelude.{◌≡◌, ◌<◌};
ghost use Rattle.isa.specs.Encode.{with_byte, with_bytes, with_bit, short_jump, extended_jump};
ghost use Rattle.isa.specs.Encode.{bit_direct, bit_jump, on_data, on_short, encode_of};

use crate::displacement::{is_short, long_byte, short_field};
use crate::{Encoded, Instruction, Operand};

// An opcode with one operand byte.
fn with_byte(opcode: u8, first: u8) -> Option<Encoded>
    ensures { result ≡ with_byte opcode first }
{
    Some(Encoded::Two(opcode, first))
}

// An opcode with two operand bytes.
fn with_bytes(opcode: u8, first: u8, second: u8) -> Option<Encoded>
    ensures { result ≡ with_bytes opcode first second }
{
    Some(Encoded::Three(opcode, first, second))
}

// A short jump. `base` is the opcode at displacement 0.
fn short_jump(base: u8, displacement: i8) -> Option<Encoded>
    requires { base < 8 }
    ensures { result ≡ short_jump base displacement }
{
    if is_short(displacement) {
        Some(Encoded::One(short_field(displacement) * 8 + base))
    } else {
        None
    }
}

// CALL or JP. `base` is the opcode at a target whose lowest digit is 0.
fn extended_jump(base: u8, target: u16) -> Option<Encoded>
    requires { base < 16 }
    ensures { result ≡ extended_jump base target }
{
    if target < 4096 {
        let [low, high] = (target * 16).to_le_bytes();
        Some(Encoded::Two(low + base, high))
    } else {
        None
    }
}

// The opcode with a bit number in its top three bits, reversed. `base` is the opcode for bit 0.
fn with_bit(base: u8, bit: u8) -> u8
    requires { (base < 32) × (bit < 8) }
    ensures { result ≡ with_bit base bit }
{
    bit.reverse_bits() + base
}

// JRR or JRS.
fn bit_jump(base: u8, bit: u8, address: u8, displacement: i8) -> Option<Encoded>
    requires { base < 32 }
    ensures { result ≡ bit_jump base bit address displacement }
{
    if bit < 8 {
        with_bytes(with_bit(base, bit), address, long_byte(displacement))
    } else {
        None
    }
}

// RES or SET.
fn bit_direct(base: u8, bit: u8, address: u8) -> Option<Encoded>
    requires { base < 32 }
    ensures { result ≡ bit_direct base bit address }
{
    if bit < 8 {
        with_byte(with_bit(base, bit), address)
    } else {
        None
    }
}

// An instruction on a data operand, by its opcodes for (X), (Y) and rr.
fn on_data(x: u8, y: u8, rr: u8, operand: Operand) -> Option<Encoded>
    ensures { result ≡ on_data x y rr operand }
{
    match operand {
        Operand::Direct(address) => with_byte(rr, address),
        Operand::Short(_) => None,
        Operand::ThroughX => Some(Encoded::One(x)),
        Operand::ThroughY => Some(Encoded::One(y)),
    }
}

// The same with a short operand too, by the opcode for register X.
fn on_short(short: u8, x: u8, y: u8, rr: u8, operand: Operand) -> Option<Encoded>
    requires { short < 64 }
    ensures { result ≡ on_short short x y rr operand }
{
    match operand {
        Operand::Direct(address) => with_byte(rr, address),
        Operand::Short(register) => {
            if register < 4 {
                Some(Encoded::One(register * 64 + short))
            } else {
                None
            }
        }
        Operand::ThroughX => Some(Encoded::One(x)),
        Operand::ThroughY => Some(Encoded::One(y)),
    }
}

// The bytes of an instruction.
#[tactic(auto, unfolding(crate::specs::Encode::encode_of))]
pub fn encode(instruction: Instruction) -> Option<Encoded>
    ensures { result ≡ encode_of instruction }
{
    match instruction {
        Instruction::Jrnz(d) => short_jump(0x00, d),
        Instruction::Jrnc(d) => short_jump(0x02, d),
        Instruction::Jrz(d) => short_jump(0x04, d),
        Instruction::Jrc(d) => short_jump(0x06, d),
        Instruction::Call(target) => extended_jump(0x01, target),
        Instruction::Jp(target) => extended_jump(0x09, target),
        Instruction::Jrr(bit, address, d) => bit_jump(0x03, bit, address, d),
        Instruction::Jrs(bit, address, d) => bit_jump(0x13, bit, address, d),
        Instruction::Res(bit, address) => bit_direct(0x0B, bit, address),
        Instruction::Set(bit, address) => bit_direct(0x1B, bit, address),
        Instruction::LoadA(o) => on_short(0x35, 0x07, 0x0F, 0x1F, o),
        Instruction::StoreA(o) => on_short(0x3D, 0x87, 0x8F, 0x9F, o),
        Instruction::LoadAImmediate(n) => with_byte(0x17, n),
        Instruction::LoadImmediate(address, value) => with_bytes(0x0D, address, value),
        Instruction::Inc(o) => on_short(0x15, 0x67, 0x6F, 0x7F, o),
        Instruction::Dec(o) => on_short(0x1D, 0xE7, 0xEF, 0xFF, o),
        Instruction::Add(o) => on_data(0x47, 0x4F, 0x5F, o),
        Instruction::AddImmediate(n) => with_byte(0x57, n),
        Instruction::Sub(o) => on_data(0xC7, 0xCF, 0xDF, o),
        Instruction::SubImmediate(n) => with_byte(0xD7, n),
        Instruction::And(o) => on_data(0xA7, 0xAF, 0xBF, o),
        Instruction::AndImmediate(n) => with_byte(0xB7, n),
        Instruction::Cp(o) => on_data(0x27, 0x2F, 0x3F, o),
        Instruction::CpImmediate(n) => with_byte(0x37, n),
        Instruction::Com => Some(Encoded::One(0x2D)),
        Instruction::Rlc => Some(Encoded::One(0xAD)),
        Instruction::Ret => Some(Encoded::One(0xCD)),
        Instruction::Reti => Some(Encoded::One(0x4D)),
        Instruction::Stop => Some(Encoded::One(0x6D)),
        Instruction::Wait => Some(Encoded::One(0xED)),
    }
}
