// Lists the 256 opcodes as they decode at 100h with the operand bytes 12h and 34h: the bytes, length, cycles, and the
// instruction in the manual's notation. It is there to be held against the manual's map and pages.
#![tactic(auto)]

use isa::decode::decode;
use listing::Line;
use listing::instruction::instruction;
use printing::{put, put_refusal};
use std::io;

fn image_with(opcode: u8) -> [u8; 4096] {
    let mut image = [0u8; 4096];
    image[0x100] = opcode;
    image[0x101] = 0x12;
    image[0x102] = 0x34;
    image
}

fn operand_byte(line: Line, byte: u8, present: bool) -> Line {
    if present {
        line.letter(b' ').byte(byte)
    } else {
        line.word(b"   ")
    }
}

// The bytes of an instruction, its length and its cycles.
fn code(image: &[u8; 4096], length: u8, cycles: u8) -> Line {
    let opcode = Line::new().byte(image[0x100]);
    let first = operand_byte(opcode, image[0x101], 1 < length);
    let second = operand_byte(first, image[0x102], 2 < length);
    let counted = second.word(b"  ").decimal(length as u32);
    counted.letter(b' ').decimal(cycles as u32).word(b"  ")
}

fn put_line(rt: &impl Print, line: Line) -> io::Result<()> {
    put(rt, line.bytes())
}

fn list_opcode(rt: &impl Print, opcode: u8) -> io::Result<()> {
    let image = image_with(opcode);
    match decode(&image, 0, 0x100) {
        Ok(decoded) => put_line(
            rt,
            instruction(
                code(&image, decoded.length, decoded.cycles),
                decoded.instruction,
                0x100,
            ),
        )?,
        Err(refusal) => {
            put_line(
                rt,
                Line::new().byte(opcode).word(b"             undefined, "),
            )?;
            put_refusal(rt, refusal)?;
        }
    }
    put(rt, b"\n")
}

fn main(rt: HostRuntime) -> io::Result<()> {
    for opcode in 0u8..=255 {
        list_opcode(&rt, opcode)?;
    }
    Ok(())
}
