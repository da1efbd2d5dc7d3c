// An instruction as a row of fields: form, operand kind, value low and high, second value, bit number, displacement;
// decoding adds length, cycles and a zero.
ghost use Rattle.std.specs.Prelude.{◌≡◌, ◌++◌, ◌≤◌, length, drop};
ghost use Rattle.exports.specs.Every.{every};
ghost use Rattle.exports.specs.Fields.{
  bare_row,
  jump_row,
  to_row,
  bit_jump_row,
  bit_row,
  immediate_row,
  operand_row,
  packed_instruction,
  decoded_row,
  operand_by,
  instruction_by,
  instruction_at,
  agree,
  unpacked_instruction,
};

use isa::displacement::{long_byte, long_displacement};
use isa::{Instruction, Operand};

fn bare(form: u8) -> [u8; 7]
    ensures { result ≡ bare_row form }
{
    [form, 0, 0, 0, 0, 0, 0]
}

fn jump(form: u8, displacement: i8) -> [u8; 7]
    ensures { result ≡ jump_row form displacement }
{
    [form, 0, 0, 0, 0, 0, long_byte(displacement)]
}

fn to(form: u8, target: u16) -> [u8; 7]
    ensures { result ≡ to_row form target }
{
    let [low, high] = target.to_le_bytes();
    [form, 0, low, high, 0, 0, 0]
}

fn bit_jump(form: u8, bit: u8, address: u8, displacement: i8) -> [u8; 7]
    ensures { result ≡ bit_jump_row form bit address displacement }
{
    [form, 0, address, 0, 0, bit, long_byte(displacement)]
}

fn on_bit(form: u8, bit: u8, address: u8) -> [u8; 7]
    ensures { result ≡ bit_row form bit address }
{
    [form, 0, address, 0, 0, bit, 0]
}

fn immediate(form: u8, value: u8, second: u8) -> [u8; 7]
    ensures { result ≡ immediate_row form value second }
{
    [form, 0, value, 0, second, 0, 0]
}

fn on(form: u8, operand: Operand) -> [u8; 7]
    ensures { result ≡ operand_row form operand }
{
    match operand {
        Operand::Direct(address) => [form, 1, address, 0, 0, 0, 0],
        Operand::Short(register) => [form, 2, register, 0, 0, 0, 0],
        Operand::ThroughX => [form, 3, 0, 0, 0, 0, 0],
        Operand::ThroughY => [form, 4, 0, 0, 0, 0, 0],
    }
}

// The seven fields that an instruction is read from.
#[tactic(auto, unfolding(crate::specs::Fields::packed_instruction))]
fn fields_of(i: Instruction) -> [u8; 7]
    ensures { result ≡ packed_instruction i }
{
    match i {
        Instruction::Jrnz(d) => jump(0, d),
        Instruction::Jrnc(d) => jump(1, d),
        Instruction::Jrz(d) => jump(2, d),
        Instruction::Jrc(d) => jump(3, d),
        Instruction::Call(target) => to(4, target),
        Instruction::Jp(target) => to(5, target),
        Instruction::Jrr(bit, a, d) => bit_jump(6, bit, a, d),
        Instruction::Jrs(bit, a, d) => bit_jump(7, bit, a, d),
        Instruction::Res(bit, a) => on_bit(8, bit, a),
        Instruction::Set(bit, a) => on_bit(9, bit, a),
        Instruction::LoadA(o) => on(10, o),
        Instruction::StoreA(o) => on(11, o),
        Instruction::LoadAImmediate(n) => immediate(12, n, 0),
        Instruction::LoadImmediate(a, n) => immediate(13, a, n),
        Instruction::Inc(o) => on(14, o),
        Instruction::Dec(o) => on(15, o),
        Instruction::Add(o) => on(16, o),
        Instruction::AddImmediate(n) => immediate(17, n, 0),
        Instruction::Sub(o) => on(18, o),
        Instruction::SubImmediate(n) => immediate(19, n, 0),
        Instruction::And(o) => on(20, o),
        Instruction::AndImmediate(n) => immediate(21, n, 0),
        Instruction::Cp(o) => on(22, o),
        Instruction::CpImmediate(n) => immediate(23, n, 0),
        Instruction::Com => bare(24),
        Instruction::Rlc => bare(25),
        Instruction::Ret => bare(26),
        Instruction::Reti => bare(27),
        Instruction::Stop => bare(28),
        Instruction::Wait => bare(29),
    }
}

// The whole row that decoding answers, from the buffer's first byte. It is written byte by byte: copied in one, the
// fields would have to stand in memory first, and be read from there as soon as they are written.
pub fn put_row(out: &mut [u8], i: Instruction, bytes: u8, cycles: u8)
    requires { 10 ≤ length out.old }
    ensures { out.new ≡ decoded_row i bytes cycles ++ drop 10 out.old }
{
    let fields = fields_of(i);
    out[0] = fields[0];
    out[1] = fields[1];
    out[2] = fields[2];
    out[3] = fields[3];
    out[4] = fields[4];
    out[5] = fields[5];
    out[6] = fields[6];
    out[7] = bytes;
    out[8] = cycles;
    out[9] = 0;
}

#[tactic(auto, unfolding(crate::specs::Fields::operand_by))]
fn operand_of(kind: u8, value: u8) -> Operand
    ensures { result ≡ operand_by kind value }
{
    match kind {
        1 => Operand::Direct(value),
        2 => Operand::Short(value),
        3 => Operand::ThroughX,
        _ => Operand::ThroughY,
    }
}

// The instruction of a form, from the fields that the form uses.
#[tactic(auto, unfolding(crate::specs::Fields::instruction_by, crate::specs::Fields::instructions))]
fn of_form(form: u8, o: Operand, n: u8, target: u16, second: u8, bit: u8, d: i8) -> Instruction
    ensures { result ≡ instruction_by form o n target second bit d }
{
    match form {
        0 => Instruction::Jrnz(d),
        1 => Instruction::Jrnc(d),
        2 => Instruction::Jrz(d),
        3 => Instruction::Jrc(d),
        4 => Instruction::Call(target),
        5 => Instruction::Jp(target),
        6 => Instruction::Jrr(bit, n, d),
        7 => Instruction::Jrs(bit, n, d),
        8 => Instruction::Res(bit, n),
        9 => Instruction::Set(bit, n),
        10 => Instruction::LoadA(o),
        11 => Instruction::StoreA(o),
        12 => Instruction::LoadAImmediate(n),
        13 => Instruction::LoadImmediate(n, second),
        14 => Instruction::Inc(o),
        15 => Instruction::Dec(o),
        16 => Instruction::Add(o),
        17 => Instruction::AddImmediate(n),
        18 => Instruction::Sub(o),
        19 => Instruction::SubImmediate(n),
        20 => Instruction::And(o),
        21 => Instruction::AndImmediate(n),
        22 => Instruction::Cp(o),
        23 => Instruction::CpImmediate(n),
        24 => Instruction::Com,
        25 => Instruction::Rlc,
        26 => Instruction::Ret,
        27 => Instruction::Reti,
        28 => Instruction::Stop,
        _ => Instruction::Wait,
    }
}

// The one instruction that seven fields can be of.
#[tactic(auto, unfolding(crate::specs::Fields::instruction_at))]
fn candidate(fields: &[u8]) -> Instruction
    requires { 7 ≤ length fields.now }
    ensures { result ≡ instruction_at fields.now }
{
    let value = fields[2];
    of_form(
        fields[0],
        operand_of(fields[1], value),
        value,
        u16::from_le_bytes([value, fields[3]]),
        fields[4],
        fields[5],
        long_displacement(fields[6]),
    )
}

// Whether a slice begins with a row.
fn begins_with(fields: &[u8], row: &[u8; 7]) -> bool
    requires { 7 ≤ length fields.now }
    ensures { result ≡ every (agree fields.now row.now) 7 }
{
    &fields[..7] == row.as_slice()
}

// Reads an instruction. A row that is not exactly that of its instruction, as one with a byte in a field that the form
// does not use, is no instruction's.
#[tactic(auto, unfolding(crate::specs::Fields::unpacked_instruction))]
pub fn read(fields: &[u8]) -> Option<Instruction>
    ensures { result ≡ unpacked_instruction fields.now }
{
    if fields.len() < 7 {
        return None;
    }
    let i = candidate(fields);
    begins_with(fields, &fields_of(i)).then_some(i)
}
