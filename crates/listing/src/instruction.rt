// Instructions in the manual's notation, with the targets of jumps as addresses.
ghost use Rattle.std.specs.Prelude.{◌≡◌, ◌++◌};
ghost use Rattle.listing.specs.Words.{ascii};
ghost use Rattle.listing.specs.Pieces.{Adds};
ghost use Rattle.listing.specs.InstructionText.{address_text, bit_text, data_text, instruction_text, operand_text};
ghost use Rattle.listing.specs.InstructionText.{register_letter};

use crate::Line;
use isa::displacement::{long_target, short_target};
use isa::{Instruction, Operand};

// The name of a short register: X, Y, V, W.
fn register_letter(register: u8) -> u8
    ensures { result ≡ register_letter register }
{
    match register {
        0 => b'X',
        1 => b'Y',
        2 => b'V',
        _ => b'W',
    }
}

// A data address or an immediate.
fn data(line: Line, n: u8) -> Line
    ensures { Adds (data_text n) line result }
{
    line.byte(n).letter(b'h')
}

#[tactic(auto, unfolding(crate::specs::InstructionText::operand_text))]
fn data_operand(line: Line, operand: Operand) -> Line
    ensures { Adds (operand_text operand) line result }
{
    match operand {
        Operand::Direct(address) => data(line, address),
        Operand::Short(register) => line.letter(register_letter(register)),
        Operand::ThroughX => line.word(b"(X)"),
        Operand::ThroughY => line.word(b"(Y)"),
    }
}

fn jump(line: Line, name: &[u8], target: u16) -> Line
    ensures { Adds (name.now ++ address_text target) line result }
{
    line.word(name).address(target).letter(b'h')
}

fn on_bit(line: Line, name: &[u8], bit: u8, address: u8) -> Line
    ensures { Adds (name.now ++ bit_text bit address) line result }
{
    let numbered = line.word(name).decimal(bit as u32);
    data(numbered.letter(b','), address)
}

fn bit_jump(line: Line, name: &[u8], bit: u8, address: u8, target: u16) -> Line
    ensures { Adds ((name.now ++ bit_text bit address) ++ (ascii "," ++ address_text target)) line result }
{
    jump(on_bit(line, name, bit, address), b",", target)
}

fn on_operand(line: Line, name: &[u8], operand: Operand) -> Line
    ensures { Adds (name.now ++ operand_text operand) line result }
{
    data_operand(line.word(name), operand)
}

fn store(line: Line, operand: Operand) -> Line
    ensures { Adds ((ascii "LD " ++ operand_text operand) ++ ascii ",A") line result }
{
    on_operand(line, b"LD ", operand).word(b",A")
}

fn immediate(line: Line, name: &[u8], value: u8) -> Line
    ensures { Adds (name.now ++ data_text value) line result }
{
    data(line.word(name), value)
}

fn load_immediate(line: Line, address: u8, value: u8) -> Line
    ensures { Adds ((ascii "LDI " ++ data_text address) ++ (ascii "," ++ data_text value)) line result }
{
    immediate(immediate(line, b"LDI ", address), b",", value)
}

// Adds the text of the instruction at an address.
#[tactic(auto, unfolding(crate::specs::InstructionText::instruction_text))]
pub fn instruction(line: Line, i: Instruction, at: u16) -> Line
    ensures { Adds (instruction_text i at) line result }
{
    match i {
        Instruction::Jrnz(e) => jump(line, b"JRNZ ", short_target(at, e)),
        Instruction::Jrnc(e) => jump(line, b"JRNC ", short_target(at, e)),
        Instruction::Jrz(e) => jump(line, b"JRZ ", short_target(at, e)),
        Instruction::Jrc(e) => jump(line, b"JRC ", short_target(at, e)),
        Instruction::Call(target) => jump(line, b"CALL ", target),
        Instruction::Jp(target) => jump(line, b"JP ", target),
        Instruction::Jrr(bit, address, e) => bit_jump(
            line,
            b"JRR ",
            bit,
            address,
            long_target(at, e),
        ),
        Instruction::Jrs(bit, address, e) => bit_jump(
            line,
            b"JRS ",
            bit,
            address,
            long_target(at, e),
        ),
        Instruction::Res(bit, address) => on_bit(line, b"RES ", bit, address),
        Instruction::Set(bit, address) => on_bit(line, b"SET ", bit, address),
        Instruction::LoadA(operand) => on_operand(line, b"LD A,", operand),
        Instruction::StoreA(operand) => store(line, operand),
        Instruction::LoadAImmediate(value) => immediate(line, b"LDI A,", value),
        Instruction::LoadImmediate(address, value) => load_immediate(line, address, value),
        Instruction::Inc(operand) => on_operand(line, b"INC ", operand),
        Instruction::Dec(operand) => on_operand(line, b"DEC ", operand),
        Instruction::Add(operand) => on_operand(line, b"ADD A,", operand),
        Instruction::AddImmediate(value) => immediate(line, b"ADDI A,", value),
        Instruction::Sub(operand) => on_operand(line, b"SUB A,", operand),
        Instruction::SubImmediate(value) => immediate(line, b"SUBI A,", value),
        Instruction::And(operand) => on_operand(line, b"AND A,", operand),
        Instruction::AndImmediate(value) => immediate(line, b"ANDI A,", value),
        Instruction::Cp(operand) => on_operand(line, b"CP A,", operand),
        Instruction::CpImmediate(value) => immediate(line, b"CPI A,", value),
        Instruction::Com => line.word(b"COM A"),
        Instruction::Rlc => line.word(b"RLC A"),
        Instruction::Ret => line.word(b"RET"),
        Instruction::Reti => line.word(b"RETI"),
        Instruction::Stop => line.word(b"STOP"),
        Instruction::Wait => line.word(b"WAIT"),
    }
}
