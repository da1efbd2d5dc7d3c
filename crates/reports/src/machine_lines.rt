// A machine in words: its mode, flags, registers and bytes.
use crate::output::{Written, put};
use alu::Flags;
use control::Mode;
use data::Origin;
use listing::Line;
use listing::pages::paged_address;
use machine::{FlagPairs, Machine};

// A number of things: `1 cycle`, `2 cycles`.
pub fn counted(line: Line, count: u32, thing: &[u8]) -> Line {
    let named = line.decimal(count).letter(b' ').word(thing);
    if count == 1 {
        return named;
    }
    named.letter(b's')
}

pub fn mode_name(line: Line, mode: Mode) -> Line {
    match mode {
        Mode::Reset => line.word(b"reset"),
        Mode::Normal => line.word(b"normal"),
        Mode::Interrupt => line.word(b"interrupt"),
        Mode::NmiOverNormal => line.word(b"NMI over normal"),
        Mode::NmiOverInterrupt => line.word(b"NMI over interrupt"),
    }
}

// Where a data byte came from, with a bank byte, in an image of so many bytes.
fn origin_name(line: Line, length: usize, bank: u8, origin: Origin) -> Line {
    match origin {
        Origin::Ram => line.word(b"RAM"),
        Origin::Register => line.word(b"register"),
        Origin::Rom(address) => paged_address(line.word(b"ROM "), length, bank, address),
        Origin::NoRom => line.word(b"no ROM"),
    }
}

// Where the data operand came from that a step read, a dash where it read none.
pub fn read_name(line: Line, length: usize, bank: u8, read: Option<Origin>) -> Line {
    match read {
        None => line.letter(b'-'),
        Some(origin) => origin_name(line, length, bank, origin),
    }
}

// The name of a data address: a register's, or the address.
pub fn data_name(line: Line, address: u8) -> Line {
    match address {
        0x80 => line.letter(b'X'),
        0x81 => line.letter(b'Y'),
        0x82 => line.letter(b'V'),
        0x83 => line.letter(b'W'),
        0xFF => line.letter(b'A'),
        _ => line.byte(address).letter(b'h'),
    }
}

fn digit(line: Line, is: bool) -> Line {
    if is {
        line.letter(b'1')
    } else {
        line.letter(b'0')
    }
}

fn flags_text(line: Line, name: &[u8], flags: Flags) -> Line {
    let named = line.word(name).word(b" Z ");
    let zero = digit(named, flags.zero);
    digit(zero.word(b" C "), flags.carry)
}

fn put_flags(rt: &HostRuntime, pairs: FlagPairs) -> Written {
    let line = flags_text(Line::new(), b"flags: normal", pairs.normal);
    let line = flags_text(line, b", interrupt", pairs.interrupt);
    put(rt, flags_text(line, b", NMI", pairs.nmi))
}

// The return addresses in use, the top first. They have no page: the bank byte picks it when they are returned to.
fn stack_text(line: Line, stack: &[u16; 6], levels: u8) -> Line {
    let mut text = line;
    for address in stack.iter().take(usize::from(levels)).rev() {
        text = text.letter(b' ').address(*address);
    }
    text
}

// The bytes of data space that are not 0, with their names.
fn data_text(bytes: &[u8; 256], row: u8) -> Line {
    let mut text = Line::new().word(b"data:");
    for i in 0..16u8 {
        let address = row % 16 * 16 + i;
        let value = bytes[usize::from(address)];
        if value != 0 {
            text = data_name(text.letter(b' '), address)
                .letter(b' ')
                .byte(value);
        }
    }
    text
}

fn put_row(rt: &HostRuntime, bytes: &[u8; 256], row: u8) -> Written {
    let text = data_text(bytes, row);
    if text.length() <= 5 {
        return Ok(());
    }
    put(rt, text)
}

fn put_data(rt: &HostRuntime, bytes: &[u8; 256]) -> Written {
    for row in 0..16 {
        put_row(rt, bytes, row)?;
    }
    Ok(())
}

// The byte that picks the page.
pub fn bank_of(m: Machine) -> u8 {
    m.bytes[0xCA]
}

// The machine of an image of so many bytes in lines: control, flags, and the data bytes that are not 0.
pub fn put_machine(rt: &HostRuntime, length: usize, m: Machine) -> Written {
    let c = m.control;
    let line = paged_address(Line::new().word(b"PC "), length, bank_of(m), c.pc);
    let line = mode_name(line.word(b", mode "), c.mode);
    put(
        rt,
        if c.asleep {
            line.word(b", asleep")
        } else {
            line
        },
    )?;
    let line = Line::new().word(b"levels: ").decimal(u32::from(c.levels));
    put(rt, stack_text(line, &m.stack, c.levels))?;
    put_flags(rt, m.flags)?;
    put_data(rt, &m.bytes)
}
