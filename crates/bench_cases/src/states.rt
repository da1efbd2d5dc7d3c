// A machine's state, and a run's report, each in one line; and where a byte came from.
use alu::Flags;
use data::Origin;
use isa::Refusal;
use machine::{Machine, Report};
use printing::{put_mode, put_refusal};
use std::io;

// The letter of a flag, a dash where it is 0.
fn letter(name: char, is: bool) -> char {
    if is { name } else { '-' }
}

// Z and C of a pair.
fn put_pair(rt: &impl Print, flags: Flags) -> io::Result<()> {
    let zero = letter('Z', flags.zero);
    let carry = letter('C', flags.carry);
    print!(rt; "  {zero}{carry}")
}

// PC, mode, levels, sleep, the three flag pairs (normal, interrupt, NMI), and some bytes.
pub fn put_state(rt: &impl Print, m: Machine) -> io::Result<()> {
    let control = m.control;
    let pairs = m.flags;
    let bytes = m.bytes;
    print!(rt; "{:03X} ", control.pc)?;
    put_mode(rt, control.mode)?;
    print!(rt; ", levels {}", control.levels)?;
    if control.asleep {
        print!(rt; ", asleep")?;
    }
    put_pair(rt, pairs.normal)?;
    put_pair(rt, pairs.interrupt)?;
    put_pair(rt, pairs.nmi)?;
    print!(rt;
        "  A {:02X} X {:02X} Y {:02X}",
        bytes[0xFF], bytes[0x80], bytes[0x81]
    )?;
    println!(rt; " 22h {:02X} 23h {:02X}", bytes[0x22], bytes[0x23])
}

// How a run or a playing ended, and the end of the line.
pub fn put_ending(rt: &impl Print, ending: Result<(), Refusal>) -> io::Result<()> {
    match ending {
        Ok(()) => print!(rt; "done")?,
        Err(refusal) => put_refusal(rt, refusal)?,
    }
    println!(rt; "")
}

// How many steps a run completed, in how many cycles, and how it ended.
pub fn put_report(rt: &impl Print, report: Report) -> io::Result<()> {
    print!(rt; "{} steps, {} cycles, ", report.steps, report.cycles)?;
    put_ending(rt, report.ending)
}

// Where a data byte came from.
pub fn put_origin(rt: &impl Print, origin: Origin) -> io::Result<()> {
    match origin {
        Origin::Ram => print!(rt; "RAM"),
        Origin::Register => print!(rt; "register"),
        Origin::Rom(address) => print!(rt; "ROM {address:03X}"),
        Origin::NoRom => print!(rt; "no ROM"),
    }
}
