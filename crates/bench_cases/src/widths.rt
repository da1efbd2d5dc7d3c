// The gauge: a sizing program with every count, and what is refused.
use crate::sizing::{
    delay_certificate, delay_image, endless_certificate, endless_image, sizing_certificate,
    sizing_image,
};
use gauge::width::width;
use printing::put_refusal;
use std::io;

fn put_width(
    rt: &impl Print,
    what: &str,
    image: &[u8],
    certificate: &[u8],
    count: u8,
) -> io::Result<()> {
    print!(rt; "{what}, count {count}: ")?;
    match width(image, certificate, count) {
        Ok(measured) => print!(rt; "width {} after {} steps", measured.width, measured.steps)?,
        Err(refusal) => put_refusal(rt, refusal)?,
    }
    println!(rt; "")
}

// What the sizing program is to show.
fn formula(count: u8) -> u16 {
    let n = u16::from(count);
    1000 + 3 * n + n / 2 + n % 7
}

// How many of the 256 counts show the formula's width.
fn right_widths(image: &[u8], certificate: &[u8]) -> usize {
    (0..=255u8)
        .filter(|count| match width(image, certificate, *count) {
            Ok(measured) => measured.width == formula(*count),
            Err(_) => false,
        })
        .count()
}

pub fn put_formula(rt: &impl Print, image: &[u8], certificate: &[u8]) -> io::Result<()> {
    let right = right_widths(image, certificate);
    println!(rt; "sizing: 1000 + 3 x count + count / 2 + count % 7 for {right} counts of 256")
}

fn put_sizes(rt: &impl Print) -> io::Result<()> {
    let image = sizing_image();
    let certificate = sizing_certificate();
    put_formula(rt, &image, &certificate)?;
    put_width(rt, "sizing", &image, &certificate, 0x00)?;
    put_width(rt, "sizing", &image, &certificate, 0x55)?;
    put_width(rt, "sizing", &image, &certificate, 0xFF)
}

fn put_late(rt: &impl Print) -> io::Result<()> {
    let image = delay_image();
    let certificate = delay_certificate();
    put_width(rt, "asleep after 65535 steps", &image, &certificate, 0x54)?;
    put_width(rt, "asleep after 65536 steps", &image, &certificate, 0x55)
}

fn put_endless(rt: &impl Print) -> io::Result<()> {
    let image = endless_image();
    let certificate = endless_certificate();
    put_width(rt, "never asleep", &image, &certificate, 0x55)
}

// What the check refuses, its own 18, 13 and 1, the gauge refuses with 23.
fn put_refused(rt: &impl Print) -> io::Result<()> {
    let image = sizing_image();
    let mut certificate = sizing_certificate();
    let short = [0u8; 2047];
    certificate[0x7FE] = 0;
    put_width(rt, "no mark at FFEh", &image, &certificate, 0x55)?;
    put_width(rt, "short certificate", &image, &short, 0x55)?;
    put_width(rt, "short image", &short, &short, 0x55)
}

pub fn put_widths(rt: &impl Print) -> io::Result<()> {
    put_sizes(rt)?;
    put_late(rt)?;
    put_endless(rt)?;
    put_refused(rt)
}
