// Hexadecimal digits, in upper case.
ghost use Rattle.std.specs.Prelude.{◌≡◌, ◌%◌};
ghost use Rattle.text_line.specs.Digits.{glyph};

// The digit of a number's lowest four bits. By hand: what a format prints is stated only for a String, on the heap.
pub fn digit(n: u16) -> u8
    ensures { result ≡ glyph (n % 16) }
{
    let low = (n % 16) as u8;
    if low < 10 {
        b'0' + low
    } else {
        b'A' + (low - 10)
    }
}
