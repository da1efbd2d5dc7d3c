// The lines that jobs print: P11 and P12, an address with letters, and one of each refusal of the job itself.
ghost use Rattle.std.specs.Prelude.{◌<◌};

use crate::parts::place;
use jobs::answer::answer;
use std::io;

// A 2K job: version 1, the count 4097, the wired byte, then image and certificate, whose first bytes stand at 800h.
pub const IMAGE: usize = 4;

pub const MARKS: usize = 2052;

// P11 of document 01.
pub fn p11() -> [u8; 4100] {
    let mut job = [0u8; 4100];
    place(&mut job, 0, b"\x01\x10\x01\x01");
    place(&mut job, IMAGE + 0x080, b"\x4D\x01\x89\x19\x88");
    place(&mut job, IMAGE + 0x090, b"\xCD");
    place(&mut job, IMAGE + 0x7FC, b"\x4D\x00\x09\x88");
    place(&mut job, MARKS + 0x7FE, b"\x11");
    place(&mut job, MARKS + 0x080, b"\x11\x21\x00\x21");
    place(&mut job, MARKS + 0x090, b"\x40");
    place(&mut job, MARKS + 0x7FC, b"\x30");
    job
}

fn put_line(rt: &impl Print, what: &str, job: &[u8]) -> io::Result<()> {
    let mut line = [0u8; 16];
    print!(rt; "{what}: ")?;
    match answer(job, &mut line) {
        Ok(length) => rt.write_all(&line[..length]),
        Err(_) => Ok(()),
    }
}

// P11 with another mark at an address, counted from 800h.
fn p11_with(at: usize, mark: u8) -> [u8; 4100]
    requires { at < 2048 }
{
    let mut job = p11();
    job[MARKS + at] = mark;
    job
}

pub fn put_lines(rt: &impl Print) -> io::Result<()> {
    put_line(rt, "P11", &p11())?;
    // "P12 the same with 20h at 883h".
    put_line(rt, "P12", &p11_with(0x083, 0x20))?;
    // A malformed mark at an address with letters.
    put_line(rt, "P11 with the mark 07h at BCDh", &p11_with(0x3CD, 0x07))?;
    put_line(rt, "two bytes", &[1, 0x10])?;
    put_line(rt, "version 2", &[2, 0x10, 0x01])?;
    put_line(rt, "three bytes", &[1, 0x10, 0x01])
}
