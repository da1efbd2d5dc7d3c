// The manual's examples of instructions on data, but for those that are among P1 to P6.
use crate::parts::place;
use alu::Flags;
use control::{Control, Mode};
use machine::state::fresh;
use machine::step::step;
use machine::{FlagPairs, Machine};
use std::io;

// A machine in normal mode at an address, with Z, C and data bytes.
pub fn machine_at(pc: u16, zero: bool, carry: bool, bytes: [u8; 256]) -> Machine {
    let cleared = Flags {
        zero: false,
        carry: false,
    };
    let stack = fresh().stack;
    Machine {
        control: Control {
            pc,
            levels: 0,
            mode: Mode::Normal,
            asleep: false,
        },
        stack,
        flags: FlagPairs {
            normal: Flags { zero, carry },
            interrupt: cleared,
            nmi: cleared,
        },
        bytes,
    }
}

// A 4K image with up to three bytes at 100h; the window shows 00h-3Fh, where a data address of 40h to 7Fh finds its
// value.
fn image_of(code: [u8; 3], address: u8, value: u8) -> [u8; 4096] {
    let mut image = [0u8; 4096];
    place(&mut image, 0x100, &code);
    if 0x40 <= address && address < 0x80 {
        image[(address - 0x40) as usize] = value;
    }
    image
}

// A, the byte at an address, Z and C.
fn outcome(m: Machine, address: u8) -> [u8; 4] {
    let flags = m.flags.normal;
    [
        m.bytes[0xFF],
        m.bytes[address as usize],
        u8::from(flags.zero),
        u8::from(flags.carry),
    ]
}

// One example. Before: A, X, Y, an address and its byte, C. After: A, the byte, Z, C.
fn example(
    rt: &impl Print,
    what: &str,
    code: [u8; 3],
    before: [u8; 6],
    after: [u8; 4],
) -> io::Result<()> {
    let [a, x, y, address, value, carry] = before;
    let mut bytes = [0u8; 256];
    bytes[0xFF] = a;
    bytes[0x80] = x;
    bytes[0x81] = y;
    bytes[address as usize] = value;
    let image = image_of(code, address, value);
    let m = machine_at(0x100, false, carry == 1, bytes);
    let stepped = step(&image, m, 0);
    print!(rt; "{what}: A {:02X}, byte {:02X}", after[0], after[1])?;
    if outcome(stepped.machine, address) == after {
        println!(rt; ", flags: as expected")
    } else {
        println!(rt; ": DIFFERS")
    }
}

fn put_sums(rt: &impl Print) -> io::Result<()> {
    example(
        rt,
        "ADDI A,22h",
        [0x57, 0x22, 0],
        [0x20, 0, 0, 0x22, 0, 1],
        [0x42, 0, 0, 0],
    )?;
    example(
        rt,
        "AND A,54h",
        [0xBF, 0x54, 0],
        [0xCC, 0, 0, 0x54, 0xF0, 1],
        [0xC0, 0xF0, 0, 1],
    )?;
    example(
        rt,
        "ANDI A,33h",
        [0xB7, 0x33, 0],
        [0x0F, 0, 0, 0x22, 0, 0],
        [0x03, 0, 0, 0],
    )
}

fn put_comparisons(rt: &impl Print) -> io::Result<()> {
    example(
        rt,
        "CP A,34h",
        [0x3F, 0x34, 0],
        [0xF8, 0, 0, 0x34, 0x1C, 1],
        [0xF8, 0x1C, 0, 0],
    )?;
    example(
        rt,
        "CPI A,1Ch",
        [0x37, 0x1C, 0],
        [0xF8, 0, 0, 0x34, 0, 1],
        [0xF8, 0, 0, 0],
    )?;
    example(
        rt,
        "RLC A",
        [0xAD, 0, 0],
        [0x89, 0, 0, 0x22, 0, 0],
        [0x12, 0, 0, 1],
    )?;
    example(
        rt,
        "SLA A",
        [0x5F, 0xFF, 0],
        [0xCD, 0, 0, 0x22, 0, 0],
        [0x9A, 0, 0, 1],
    )
}

fn put_differences(rt: &impl Print) -> io::Result<()> {
    example(
        rt,
        "SUB A,(Y)",
        [0xCF, 0, 0],
        [0x78, 0, 0x23, 0x23, 0x53, 1],
        [0x25, 0x53, 0, 0],
    )?;
    example(
        rt,
        "SUBI A,25h",
        [0xD7, 0x25, 0],
        [0x56, 0, 0, 0x22, 0, 1],
        [0x31, 0, 0, 0],
    )
}

// The manual's DEC (X) and INC (X) are on register 45h, which the ROM window covers here: 25h instead, and then 45h,
// where nothing is stored.
fn put_stores(rt: &impl Print) -> io::Result<()> {
    example(
        rt,
        "CLR 22h",
        [0x0D, 0x22, 0x00],
        [0x01, 0, 0, 0x22, 0x33, 1],
        [0x01, 0x00, 0, 1],
    )?;
    example(
        rt,
        "DEC (X), X 25h",
        [0xE7, 0, 0],
        [0x01, 0x25, 0, 0x25, 0x16, 1],
        [0x01, 0x15, 0, 1],
    )?;
    example(
        rt,
        "INC (X), X 25h",
        [0x67, 0, 0],
        [0x01, 0x25, 0, 0x25, 0x16, 0],
        [0x01, 0x17, 0, 0],
    )?;
    example(
        rt,
        "DEC (X), X 45h",
        [0xE7, 0, 0],
        [0x01, 0x45, 0, 0x45, 0x01, 0],
        [0x01, 0x01, 1, 0],
    )
}

fn put_loads(rt: &impl Print) -> io::Result<()> {
    example(
        rt,
        "LD A,34h",
        [0x1F, 0x34, 0],
        [0x00, 0, 0, 0x34, 0x45, 1],
        [0x45, 0x45, 0, 1],
    )?;
    example(
        rt,
        "LDI 34h,45h",
        [0x0D, 0x34, 0x45],
        [0x00, 0, 0, 0x34, 0x00, 1],
        [0x00, 0x45, 0, 1],
    )?;
    example(
        rt,
        "LDI A,00h",
        [0x17, 0x00, 0],
        [0x45, 0, 0, 0x34, 0x00, 1],
        [0x00, 0x00, 1, 1],
    )
}

fn put_bits(rt: &impl Print) -> io::Result<()> {
    example(
        rt,
        "SET 4,23h",
        [0x3B, 0x23, 0],
        [0x00, 0, 0, 0x23, 0x00, 0],
        [0x00, 0x10, 0, 0],
    )
}

pub fn put_examples(rt: &impl Print) -> io::Result<()> {
    put_sums(rt)?;
    put_comparisons(rt)?;
    put_differences(rt)?;
    put_stores(rt)?;
    put_loads(rt)?;
    put_bits(rt)
}
