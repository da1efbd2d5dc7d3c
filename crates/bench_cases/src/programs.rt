// Small programs, by their bytes.
use crate::parts::place;

// RETI; LDI A,20h; LDI 22h,33h; ADD A,22h; COM A; ADDI A,60h; RLC A; CPI A,20h; SUBI A,1Ah; AND A,22h; ANDI A,0Fh;
// SUB A,A; SLA A.
pub const ARITHMETIC: [u8; 24] = [
    0x4D, 0x17, 0x20, 0x0D, 0x22, 0x33, 0x5F, 0x22, 0x2D, 0x57, 0x60, 0xAD, 0x37, 0x20, 0xD7, 0x1A,
    0xBF, 0x22, 0xB7, 0x0F, 0xDF, 0xFF, 0x5F, 0xFF,
];

// RETI; LDI X,22h; LDI Y,23h; LDI A,81h; LD (X),A; INC (X); LD (Y),A; RES 4,22h; SET 4,23h; JRR 4,22h and JRS 7,23h
// to the next
// instruction; DEC Y; LD V,A; LD A,V; NOP.
pub const DATA: [u8; 28] = [
    0x4D, 0x0D, 0x80, 0x22, 0x0D, 0x81, 0x23, 0x17, 0x81, 0x87, 0x67, 0x8F, 0x2B, 0x22, 0x3B, 0x23,
    0x23, 0x22, 0x01, 0xF3, 0x23, 0x01, 0x5D, 0xBD, 0xB5, 0x04, 0x04, 0x04,
];

// RETI; LDI 0C9h,04h (the window shows 100h); LD A,40h; INC 41h (a store there does nothing); LD A,41h; LD 42h,A; LD
// A,42h.
pub const WINDOW: [u8; 14] = [
    0x4D, 0x0D, 0xC9, 0x04, 0x1F, 0x40, 0x7F, 0x41, 0x1F, 0x41, 0x9F, 0x42, 0x1F, 0x42,
];

// RETI; LDI 0C9h,0FBh; LD A,0C9h (reads 0); SET 2,0C9h (stores 04h: the window shows 100h); LD A,40h; LDI X,0C8h; LDI
// 0C8h,0FFh; LD A,(X) (reads 0); RES 0,0C8h (stores 0: sources disabled); NOP; SET 4,0C8h (stores 10h: enabled); NOP.
pub const WRITE_ONLY: [u8; 23] = [
    0x4D, 0x0D, 0xC9, 0xFB, 0x1F, 0xC9, 0x5B, 0xC9, 0x1F, 0x40, 0x0D, 0x80, 0xC8, 0x0D, 0xC8, 0xFF,
    0x07, 0x0B, 0xC8, 0x04, 0x3B, 0xC8, 0x04,
];

// The request bytes for it: source 1 asks at the first NOP, and is not taken; then at the second, and is taken.
pub const ASKED_TWICE: [u8; 13] = [0, 0, 0, 0, 0, 0, 0, 0, 0, 0, 0x02, 0, 0x02];

// RETI; CALL 108h; CALL 109h; NOP; NOP; NOP; at 108h RET; at 109h INC X; RET.
pub const SUBROUTINES: [u8; 12] = [
    0x4D, 0x81, 0x10, 0x91, 0x10, 0x04, 0x04, 0x04, 0xCD, 0x15, 0xCD, 0x04,
];

// RETI; LDI 0C8h,10h (sources enabled); NOP; WAIT; NOP; JP 104h.
pub const REQUESTS: [u8; 9] = [0x4D, 0x0D, 0xC8, 0x10, 0x04, 0xED, 0x04, 0x49, 0x10];

// The request bytes for it: a source and NMI at once, NMI inside a source's service, a second NMI that is not taken,
// and one that wakes.
pub const ASKED: [u8; 18] = [
    0, 0, 0x1F, 0, 0, 0, 0x1E, 0x01, 0x01, 0, 0x02, 0x04, 0x01, 0x01, 0, 0, 0, 0x10,
];

// A 4K image with the code at 100h, JP 100h at FFEh, and RETI at the vectors of NMI and of the sources.
pub fn image_of(code: &[u8]) -> [u8; 4096] {
    let mut image = [0u8; 4096];
    place(&mut image, 0x100, code);
    place(&mut image, 0xFFE, b"\x09\x10");
    for vector in [0xFFC, 0xFF6, 0xFF4, 0xFF2, 0xFF0] {
        place(&mut image, vector, b"\x4D");
    }
    image
}
