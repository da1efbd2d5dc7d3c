// The manual's examples of jumps and returns, but for those that are among P7 to P10, and document 01's words on
// their ends.
use crate::examples::machine_at;
use machine::Machine;
use machine::step::step;
use printing::put_refusal;
use std::io;

// A 4K image with up to three bytes at an address, and 0 elsewhere.
fn image_at(at: u16, code: [u8; 3]) -> [u8; 4096] {
    let mut image = [0u8; 4096];
    let first = (at % 4096) as usize;
    image[first] = code[0];
    image[(first + 1) % 4096] = code[1];
    image[(first + 2) % 4096] = code[2];
    image
}

// Where one step of a machine goes, or what stops it.
fn put_step(rt: &impl Print, what: &str, image: &[u8], m: Machine) -> io::Result<()> {
    let stepped = step(image, m, 0);
    print!(rt; "{what}: ")?;
    match stepped.report.answer {
        Ok(_) => print!(rt; "{:03X}", stepped.machine.control.pc)?,
        Err(refusal) => put_refusal(rt, refusal)?,
    }
    println!(rt; "")
}

// A jump at an address, with Z and C.
fn jump(
    rt: &impl Print,
    what: &str,
    at: u16,
    code: [u8; 3],
    zero: bool,
    carry: bool,
) -> io::Result<()> {
    let image = image_at(at, code);
    put_step(rt, what, &image, machine_at(at, zero, carry, [0u8; 256]))
}

// The same with one level in use, whose return address is given.
fn with_level(rt: &impl Print, what: &str, at: u16, code: [u8; 3], address: u16) -> io::Result<()> {
    let image = image_at(at, code);
    let mut m = machine_at(at, false, false, [0u8; 256]);
    m.stack[0] = address;
    m.control.levels = 1;
    put_step(rt, what, &image, m)
}

pub fn put_jumps(rt: &impl Print) -> io::Result<()> {
    jump(rt, "JRC +8 at 200h, C 1", 0x200, [0x3E, 0, 0], false, true)?;
    jump(rt, "JRC +8 at 200h, C 0", 0x200, [0x3E, 0, 0], false, false)?;
    jump(
        rt,
        "JRNC -5 at 200h, C 0",
        0x200,
        [0xD2, 0, 0],
        false,
        false,
    )?;
    jump(
        rt,
        "JRNZ -5 at 200h, Z 0",
        0x200,
        [0xD0, 0, 0],
        false,
        false,
    )?;
    jump(rt, "JRZ +8 at 200h, Z 1", 0x200, [0x3C, 0, 0], true, false)?;
    with_level(rt, "RET at 456h to 3DFh", 0x456, [0xCD, 0, 0], 0x3DF)?;
    with_level(rt, "RETI at 456h to 3DFh", 0x456, [0x4D, 0, 0], 0x3DF)?;
    jump(
        rt,
        "RET at 456h, stack empty",
        0x456,
        [0xCD, 0, 0],
        false,
        false,
    )?;
    jump(
        rt,
        "CALL at FFFh, operand at 000h",
        0xFFF,
        [0x01, 0x20, 0],
        false,
        false,
    )?;
    jump(rt, "JRC at FFFh, +16", 0xFFF, [0x7E, 0, 0], false, true)?;
    jump(rt, "STOP at FFFh", 0xFFF, [0x6D, 0, 0], false, false)?;
    jump(rt, "Undefined 8Dh", 0x300, [0x8D, 0, 0], false, false)
}
