// Hexadecimal digits.
ghost use Rattle.std.specs.Prelude.{◌<◌, ◌≡◌, IfSome};
ghost use Rattle.intel_hex.specs.Digits.{are_digits, digit_of};

// The value of a hexadecimal digit, of upper or lower case.
#[tactic(auto, unfolding(crate::specs::Digits::digit_of))]
pub fn digit_of(character: u8) -> Option<u8>
    ensures value { result ≡ digit_of character }
    ensures small { IfSome result (λ digit. digit < 16) }
{
    match character {
        b'0'..=b'9' => Some(character - b'0'),
        b'A'..=b'F' => Some(character - b'A' + 10),
        b'a'..=b'f' => Some(character - b'a' + 10),
        _ => None,
    }
}

// Whether every character is a hexadecimal digit.
pub fn is_digits(digits: &[u8]) -> bool
    ensures { result ≡ are_digits digits.now }
{
    digits
        .iter()
        .all(|character| digit_of(*character).is_some())
}
