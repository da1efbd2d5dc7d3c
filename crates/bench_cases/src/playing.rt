// Records of a session, played: whole ones, ones that an entry ends, and what is refused.
use crate::sample::sample;
use crate::states::{put_ending, put_state};
use playback::play::play;
use printing::put_refusal;
use std::io;

fn put_playing(rt: &impl Print, what: &str, image: &[u8], recording: &[u8]) -> io::Result<()> {
    print!(rt; "{what}: ")?;
    match play(image, recording) {
        Ok(played) => {
            print!(rt; "{} entries, {} cycles, ", played.entries, played.cycles)?;
            put_ending(rt, played.ending)?;
            put_state(rt, played.machine)
        }
        Err(refusal) => {
            put_refusal(rt, refusal)?;
            println!(rt; "")
        }
    }
}

fn put_whole(rt: &impl Print, image: &[u8]) -> io::Result<()> {
    put_playing(rt, "empty", image, b"\x01\x00\x00")?;
    put_playing(
        rt,
        "store, step, step, reset, step",
        image,
        b"\x01\x00\x0A\x01\x22\x30\x00\x00\x00\x00\x02\x00\x00",
    )
}

// Stores and resets count: the first record's store, its third entry, is number 2.
fn put_ended(rt: &impl Print, image: &[u8]) -> io::Result<()> {
    put_playing(
        rt,
        "step, reset, store at 40h, step",
        image,
        b"\x01\x00\x08\x00\x00\x02\x01\x40\x30\x00\x00",
    )?;
    put_playing(
        rt,
        "step, step with 20h",
        image,
        b"\x01\x00\x04\x00\x00\x00\x20",
    )
}

// FFEh RET: a pop on an empty stack.
fn put_stopped(rt: &impl Print) -> io::Result<()> {
    let mut image = [0u8; 2048];
    image[0x7FE] = 0xCD;
    put_playing(
        rt,
        "store, step that stops",
        &image,
        b"\x01\x00\x05\x01\x22\x30\x00\x00",
    )
}

fn put_refused(rt: &impl Print, image: &[u8]) -> io::Result<()> {
    put_playing(rt, "short image", b"\x00", b"\x03")?;
    put_playing(rt, "two bytes of version 3", image, b"\x03\x00")?;
    put_playing(rt, "version 3, wrong count", image, b"\x03\x00\x01")?;
    put_playing(rt, "three bytes of version 2", image, b"\x02\x00\x00")?;
    put_playing(rt, "version 2, one reset", image, b"\x02\x00\x00\x01\x02")?;
    put_playing(rt, "wrong count", image, b"\x01\x00\x02\x03")?;
    put_playing(rt, "unknown entry", image, b"\x01\x00\x03\x00\x00\x03")?;
    put_playing(rt, "cut step", image, b"\x01\x00\x01\x00")?;
    put_playing(rt, "cut store", image, b"\x01\x00\x02\x01\x22")
}

// Version 2 with the least number of bytes that it is for, and with one less.
// Every byte is 2 at first: the version, and resets.
fn put_long(rt: &impl Print, image: &[u8]) -> io::Result<()> {
    let mut recording = [2u8; 65540];
    recording[1] = 1;
    recording[2] = 0;
    recording[3] = 0;
    put_playing(rt, "version 2, 65536 resets", image, &recording)?;
    recording[1] = 0;
    recording[2] = 0xFF;
    recording[3] = 0xFF;
    put_playing(rt, "version 2, 65535 resets", image, &recording[..65539])
}

pub fn put_playings(rt: &impl Print) -> io::Result<()> {
    let image = sample();
    put_whole(rt, &image)?;
    put_ended(rt, &image)?;
    put_stopped(rt)?;
    put_refused(rt, &image)?;
    put_long(rt, &image)
}
