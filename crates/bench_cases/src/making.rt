// Certificates as the maker makes them, and what it refuses.
use crate::lines::{IMAGE, MARKS, p11};
use crate::sizing::{recursive_image, sizing_image};
use crate::widths::put_formula;
use maker::make::make;
use printing::put_refusal;
use std::io;

// What a buffer holds before.
const FILL: u8 = 0xAA;

// The marks of a 2K certificate, each after its address.
fn put_marks(rt: &impl Print, certificate: &[u8; 2048]) -> io::Result<()> {
    for (i, mark) in certificate.iter().enumerate() {
        let mark = *mark;
        let address = 0x800 + i;
        if mark != 0 {
            print!(rt; " {address:03X}:{mark:02X}")?;
        }
    }
    Ok(())
}

// How many bytes of a buffer are as they were.
fn kept(buffer: &[u8; 2048]) -> usize {
    buffer.iter().filter(|byte| **byte == FILL).count()
}

// Makes a certificate into a buffer of 2K.
fn put_made(rt: &impl Print, what: &str, image: &[u8], wired: u8) -> io::Result<()> {
    let mut buffer = [FILL; 2048];
    print!(rt; "{what}: ")?;
    match make(image, wired, &mut buffer) {
        Ok(levels) => {
            print!(rt; "{levels} levels,")?;
            put_marks(rt, &buffer)?;
        }
        Err(refusal) => {
            put_refusal(rt, refusal)?;
            let kept = kept(&buffer);
            print!(rt; ", bytes kept: {kept}")?;
        }
    }
    println!(rt; "")
}

// The sizing program's widths, with the certificate that is made for it.
fn put_sized(rt: &impl Print) -> io::Result<()> {
    let image = sizing_image();
    let mut certificate = [0u8; 2048];
    let _ = make(&image, 0, &mut certificate);
    print!(rt; "with the made certificate, ")?;
    put_formula(rt, &image, &certificate)
}

// 1 before 11, 11 before 25, 25 before 26.
fn put_refused(rt: &impl Print) -> io::Result<()> {
    let recursive = recursive_image();
    // 05h is no instruction: with a long enough buffer this would be 26.
    let large = [0x05u8; 4096];
    put_made(rt, "recursion", &recursive, 0x00)?;
    put_made(rt, "4K into 2K", &large, 0x00)?;
    put_made(rt, "4K into 2K, wired 20h", &large, 0x20)?;
    put_made(rt, "2047 bytes, wired 20h", &large[..2047], 0x20)
}

pub fn put_making(rt: &impl Print) -> io::Result<()> {
    let job = p11();
    put_made(rt, "P11 made", &job[IMAGE..MARKS], 0x01)?;
    put_made(rt, "P11 with all wired", &job[IMAGE..MARKS], 0x1F)?;
    put_sized(rt)?;
    put_refused(rt)
}
