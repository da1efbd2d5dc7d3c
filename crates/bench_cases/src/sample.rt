// A small ST62 program in an image of 2K, whose first byte stands at 800h.
use crate::parts::place;

pub fn sample() -> [u8; 2048] {
    let mut image = [0u8; 2048];
    // FFEh JP 880h; 880h RETI, which ends start-up.
    place(&mut image, 0x7FE, b"\x09\x88");
    place(&mut image, 0x080, b"\x4D");
    // 881h LD A,20h; 883h ADDI A,0Ch; 885h CALL 890h; 887h STOP.
    place(&mut image, 0x081, b"\x1F\x20\x57\x0C\x01\x89\x6D");
    // 890h LD 21h,A; 892h RET.
    place(&mut image, 0x090, b"\x9F\x21\xCD");
    // NMI: FFCh JP 8A0h; 8A0h INC 22h; 8A2h RETI.
    place(&mut image, 0x7FC, b"\x09\x8A");
    place(&mut image, 0x0A0, b"\x7F\x22\x4D");
    image
}
