// Sources by name, as `--wired` and `--request` have them.
ghost use Rattle.std.specs.Prelude.{◌≡◌, ◌==◌, ◌<◌, length, IfSome, position};
ghost use Rattle.options.specs.Wired.{bit_named, parts_of, request_named, wired_after, wired_named};

use crate::numbers::decimal_of;

// The bit of a source's name.
#[tactic(auto, unfolding(crate::specs::Wired::bit_named))]
pub fn bit_of(name: &[u8]) -> Option<u8>
    ensures { result ≡ bit_named name.now }
{
    match name {
        b"nmi" => Some(1),
        b"1" => Some(2),
        b"2" => Some(4),
        b"3" => Some(8),
        b"4" => Some(16),
        _ => None,
    }
}

// Where a letter first stands.
fn place_of(text: &[u8], letter: u8) -> Option<usize>
    ensures first { result ≡ position (λ c. c == letter) text.now }
    ensures within { IfSome result (λ at. at < length text.now) }
{
    text.iter().position(|c| *c == letter)
}

// The bits of names with commas between them. A loop: `split` is stated for text, and these are bytes.
fn bits_of(names: &[u8]) -> Option<u8>
    ensures { result ≡ wired_after 0 (parts_of 44 names.now) }
{
    let mut rest = names;
    let mut byte = 0u8;
    while let Some(end) = place_of(rest, b',') {
        byte |= bit_of(&rest[..end])?;
        rest = &rest[end + 1..];
    }
    let last = bit_of(rest)?;
    Some(byte | last)
}

// The wired byte of `none`, or of names with commas between them: bit 0 for NMI, bits 1 to 4 for sources 1 to 4.
#[tactic(auto, unfolding(crate::specs::Wired::wired_named))]
pub fn wired_of(text: &[u8]) -> Option<u8>
    ensures { result ≡ wired_named text.now }
{
    if text == b"none".as_slice() {
        Some(0)
    } else {
        bits_of(text)
    }
}

// A request, as `3=nmi`: the step, from 0, and the source's bit.
#[tactic(auto, unfolding(crate::specs::Wired::request_named))]
pub fn request_of(text: &[u8]) -> Option<(u16, u8)>
    ensures { result ≡ request_named text.now }
{
    let middle = place_of(text, b'=')?;
    let step = decimal_of(&text[..middle])?;
    let bit = bit_of(&text[middle + 1..])?;
    Some((step, bit))
}
