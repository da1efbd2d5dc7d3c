// The CRC-32 of bytes, as zip and Ethernet have it: polynomial EDB88320h with the lowest bit first.
ghost use Rattle.std.specs.Prelude.{◌≡◌};
ghost use Rattle.intel_hex.specs.Crc.{after_bit, after_byte, crc_of};

// One bit: the register is halved, and takes the polynomial where a 1 falls out.
#[tactic(auto, unfolding(crate::specs::Crc::after_bit))]
fn after_bit(register: u32) -> u32
    ensures { result ≡ after_bit register }
{
    let half = register / 2;
    if register % 2 == 1 {
        half ^ 0xEDB8_8320
    } else {
        half
    }
}

// One byte: added to the low bits, then eight bits.
fn after_byte(register: u32, byte: u8) -> u32
    ensures { result ≡ after_byte register byte }
{
    let mut r = register ^ u32::from(byte);
    for _ in 0..8u32 {
        r = after_bit(r);
    }
    r
}

// The register starts as FFFFFFFFh, and is inverted at the end.
#[tactic(auto, unfolding(crate::specs::Crc::crc_of))]
pub fn crc_32(bytes: &[u8]) -> u32
    ensures { result ≡ crc_of bytes.now }
{
    let register = bytes
        .iter()
        .fold(0xFFFF_FFFF, |register, byte| after_byte(register, *byte));
    register ^ 0xFFFF_FFFF
}
