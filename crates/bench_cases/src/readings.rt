// Bytes of data space read with their origins, and what the reading refuses.
use crate::examples::machine_at;
use crate::sample::sample;
use crate::states::put_origin;
use machine::Machine;
use machine::reading::read;
use printing::put_refusal;
use std::io;

fn put_reading(
    rt: &impl Print,
    what: &str,
    image: &[u8],
    m: Machine,
    address: u8,
) -> io::Result<()> {
    print!(rt; "{what}: ")?;
    match read(image, m, address) {
        Ok(reading) => {
            print!(rt; "{:02X} from ", reading.byte)?;
            put_origin(rt, reading.origin)?;
        }
        Err(refusal) => put_refusal(rt, refusal)?,
    }
    println!(rt; "")
}

// A machine with a page in the ROM window register, sources enabled, and a byte after both registers.
fn with_page(page: u8) -> Machine {
    let mut bytes = [0u8; 256];
    bytes[0x3F] = 0x33;
    bytes[0x80] = 0x44;
    bytes[0xC8] = 0x10;
    bytes[0xC9] = page;
    bytes[0xCA] = 0x55;
    machine_at(0x880, false, false, bytes)
}

// Page 22h shows 880h, where the sample begins; the 2K image has nothing at page 1Fh, and begins at page 20h.
fn put_bytes(rt: &impl Print, image: &[u8]) -> io::Result<()> {
    let m = with_page(0x22);
    put_reading(rt, "3Fh", image, m, 0x3F)?;
    put_reading(rt, "80h", image, m, 0x80)?;
    put_reading(rt, "41h, page 22h", image, m, 0x41)?;
    put_reading(rt, "7Fh, page 1Fh", image, with_page(0x1F), 0x7F)?;
    put_reading(rt, "40h, page 20h", image, with_page(0x20), 0x40)?;
    put_reading(rt, "C8h, 10h stored", image, m, 0xC8)?;
    put_reading(rt, "C9h, 22h stored", image, m, 0xC9)?;
    put_reading(rt, "CAh, 55h stored", image, m, 0xCA)
}

// No image and a PC outside program space: 1 comes first; then that PC alone.
fn put_refusals(rt: &impl Print, image: &[u8]) -> io::Result<()> {
    let m = machine_at(0x1000, false, false, [0u8; 256]);
    put_reading(rt, "no image, PC 1000h", b"", m, 0x3F)?;
    put_reading(rt, "PC 1000h", image, m, 0x3F)
}

pub fn put_readings(rt: &impl Print) -> io::Result<()> {
    let image = sample();
    put_bytes(rt, &image)?;
    put_refusals(rt, &image)
}
