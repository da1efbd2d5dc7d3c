// Numbers of 32 bits as the bytes and addresses that the operations take.
ghost use Rattle.std.specs.Prelude.{◌≡◌};
ghost use Rattle.exports.specs.Clamp.{clamped_byte, clamped_address};

// A byte; a greater number becomes 255, which is refused as that number is: it sets bits that are no source's.
pub fn clamp_byte(n: u32) -> u8
    ensures { result ≡ clamped_byte n }
{
    n.min(255) as u8
}

// A program address; a greater number becomes 1000h, which is refused as that number is.
pub fn clamp_address(n: u32) -> u16
    ensures { result ≡ clamped_address n }
{
    n.min(4096) as u16
}
