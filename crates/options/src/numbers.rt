// Numbers on the command line.
ghost use Rattle.std.specs.Prelude.{◌≡◌};
ghost use Rattle.options.specs.Numbers.{byte_named, decimal_named};

use intel_hex::digit_of;

// A decimal number, up to 65,535.
pub fn decimal_of(text: &[u8]) -> Option<u16>
    ensures { result ≡ decimal_named text.now }
{
    if text.is_empty() {
        return None;
    }
    let mut value = 0u32;
    for letter in text {
        if *letter < b'0' || b'9' < *letter {
            return None;
        }
        value = value * 10 + u32::from(*letter - b'0');
        if 65535 < value {
            return None;
        }
    }
    Some(value as u16)
}

// A byte in two hexadecimal digits.
#[tactic(auto, unfolding(crate::specs::Numbers::byte_named))]
pub fn byte_of(text: &[u8]) -> Option<u8>
    ensures { result ≡ byte_named text.now }
{
    if text.len() != 2 {
        return None;
    }
    let high = digit_of(text[0])?;
    let low = digit_of(text[1])?;
    Some(high * 16 + low)
}
