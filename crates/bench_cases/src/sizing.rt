// Programs for the gauge, each an image of 2K and its certificate, both from 800h on.

use crate::parts::place;

// FFEh JP 880h; 880h RETI, which ends start-up; from 881h on the main code.
fn image_of(main: &[u8]) -> [u8; 2048] {
    let mut image = [0u8; 2048];
    place(&mut image, 0x7FE, b"\x09\x88");
    place(&mut image, 0x080, b"\x4D");
    place(&mut image, 0x081, main);
    image
}

// Its marks.
fn certificate_of(main: &[u8]) -> [u8; 2048] {
    let mut certificate = [0u8; 2048];
    place(&mut certificate, 0x7FE, b"\x11");
    place(&mut certificate, 0x080, b"\x11");
    place(&mut certificate, 0x081, main);
    certificate
}

// The table at A00h: for each count its half plus its remainder by 7.
fn table(image: &mut [u8; 2048]) {
    for count in 0..256 {
        image[0x200 + count] = (count / 2 + count % 7) as u8;
    }
}

// 881h LDI 84h,03h; LDI 85h,E8h; 887h LD A,0C0h; CALL 8B0h; LD A,0C0h; CALL 8B0h; LD A,0C0h; CALL 8B0h: 1000 and three
// times the count. 893h LD A,0C0h; RLC A three times; ANDI A,03h; ADDI A,28h; LD 0C9h,A: the window shows the part of
// the table that has the count's entry. 89Eh LD A,0C0h; ANDI A,3Fh; ADDI A,40h; LD X,A; LD A,(X); CALL 8B0h; 8A8h STOP;
// JP 8A8h. 8B0h ADD A,85h; LD 85h,A; JRNC 8B7h; INC 84h; 8B7h RET: adds A to the width, which so is
// 1000 + 3 x count + count / 2 + count % 7.
pub fn sizing_image() -> [u8; 2048] {
    let mut image = image_of(
        b"\x0D\x84\x03\x0D\x85\xE8\x1F\xC0\x01\x8B\x1F\xC0\x01\x8B\x1F\xC0\x01\x8B",
    );
    place(
        &mut image,
        0x093,
        b"\x1F\xC0\xAD\xAD\xAD\xB7\x03\x57\x28\x9F\xC9",
    );
    place(
        &mut image,
        0x09E,
        b"\x1F\xC0\xB7\x3F\x57\x40\x3D\x07\x01\x8B\x6D\x89\x8A",
    );
    place(&mut image, 0x0B0, b"\x5F\x85\x9F\x85\x12\x7F\x84\xCD");
    table(&mut image);
    image
}

pub fn sizing_certificate() -> [u8; 2048] {
    let mut certificate = certificate_of(
        b"\x21\x00\x00\x21\x00\x00\x21\x00\x21\x00\x21\x00\x21\x00\x21\x00\x21\x00",
    );
    place(
        &mut certificate,
        0x093,
        b"\x21\x00\x21\x21\x21\x21\x00\x21\x00\x21\x00",
    );
    place(
        &mut certificate,
        0x09E,
        b"\x21\x00\x21\x00\x21\x00\x21\x21\x21\x00\x20\x20",
    );
    place(&mut certificate, 0x0B0, b"\x40\x00\x40\x00\x40\x40\x00\x40");
    certificate
}

// 881h LD A,0C0h; LD 85h,A; NOP; LDI X,FDh; 889h LDI Y,80h; 88Ch DEC Y; JRNZ 88Ch; DEC X; JRNZ 889h;
// 890h JRR 0,0C0h,894h; NOP; 894h STOP; JP 894h: asleep after 65,535 steps with an even count, after 65,536 with an odd
// one.
pub fn delay_image() -> [u8; 2048] {
    image_of(
        b"\x1F\xC0\x9F\x85\x04\x0D\x80\xFD\x0D\x81\x80\x5D\xF0\x1D\xC8\x03\xC0\x02\x04\x6D\x49\x89",
    )
}

pub fn delay_certificate() -> [u8; 2048] {
    certificate_of(
        b"\x20\x00\x20\x00\x20\x20\x00\x00\x20\x00\x00\x20\x20\x20\x20\x20\x00\x00\x20\x20\x20",
    )
}

// 881h JP 881h: never asleep.
pub fn endless_image() -> [u8; 2048] {
    image_of(b"\x19\x88")
}

pub fn endless_certificate() -> [u8; 2048] {
    certificate_of(b"\x20")
}

// 881h CALL 8B0h; JP 881h. 8B0h CALL 8B0h; RET: no number of levels suffices.
pub fn recursive_image() -> [u8; 2048] {
    let mut image = image_of(b"\x01\x8B\x19\x88");
    place(&mut image, 0x0B0, b"\x01\x8B\xCD");
    image
}
