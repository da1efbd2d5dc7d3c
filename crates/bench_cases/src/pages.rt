// Images of two pages and the fixed half, step by step and as a run: the byte at 0CAh picks what stands below 800h.
use crate::parts::place;
use crate::traces::{put_run, put_steps};
use std::io;

// Where page 1 and the fixed half begin in an image.
const SECOND: usize = 2048;

const FIXED: usize = 4096;

// Page 0 and page 1 change places.
fn changing() -> [u8; 6144] {
    let mut image = [0u8; 6144];
    // FFEh JP 100h.
    place(&mut image, FIXED + 0x7FE, b"\x09\x10");
    // In page 0, at 100h: RETI; LDI 0CAh,01h, after which page 1 goes on; at 111h LD A,40h.
    place(&mut image, 0x100, b"\x4D\x0D\xCA\x01");
    place(&mut image, 0x111, b"\x1F\x40");
    // In page 1, at 104h: LDI 0CAh,03h, which is page 1 again; LDI 0C9h,04h (the window shows 100h); LD A,40h (page
    // 1's A5h); at 10Ch NOP; NOP; LDI 0CAh,02h, after which page 0 goes on at 111h.
    place(&mut image, SECOND + 0x100, b"\xA5");
    place(
        &mut image,
        SECOND + 0x104,
        b"\x0D\xCA\x03\x0D\xC9\x04\x1F\x40\x04\x04\x0D\xCA\x02",
    );
    image
}

// Instructions that begin in one half and end in the other.
fn seams() -> [u8; 6144] {
    let mut image = [0u8; 6144];
    // In the fixed half: FFEh NOP; FFFh LDI A with the page's byte at 000h; 801h LDI 0CAh,01h; JP FFFh.
    place(&mut image, FIXED + 0x7FE, b"\x04\x17");
    place(&mut image, FIXED + 0x001, b"\x0D\xCA\x01\xF9\xFF");
    // Page 0 has 55h at 000h, JP 7FFh at 001h and LDI A at 7FFh, with 33h at 800h.
    place(&mut image, 0x000, b"\x55\xF9\x7F");
    place(&mut image, 0x7FF, b"\x17");
    place(&mut image, FIXED, b"\x33");
    // Page 1 has 44h at 000h and RETI at 001h.
    place(&mut image, SECOND, b"\x44\x4D");
    image
}

fn put_paged(rt: &impl Print, title: &str, image: &[u8], n: u16) -> io::Result<()> {
    println!(rt; "{title}")?;
    put_steps(rt, image, &[], n as usize)?;
    put_run(rt, image, &[], n as u32)
}

pub fn put_pages(rt: &impl Print) -> io::Result<()> {
    put_paged(rt, "A change of page", &changing(), 10)?;
    put_paged(rt, "Instructions across halves", &seams(), 8)
}
