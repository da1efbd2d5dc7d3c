// A line in the making, and writing it to a buffer.
ghost use Rattle.std.specs.Prelude.{◌≡◌, ◌≤◌, ◌-◌, [], ◌∷◌, length};
ghost use Rattle.text_line.specs.Digits.{decimal_of, three_digits, two_digits};
ghost use Rattle.text_line.specs.Line.{Adds, Writes, spaces};

use crate::digit::digit;
use std::marker::Model;

// A line of at most `N` bytes: the first `count` of its letters. Those after them are 0.
#[derive(Clone, Copy)]
pub struct Line<const N: usize> {
    letters: [u8; N],
    count: usize,
}

// Contracts see the bytes of the line.
impl<const N: usize> Model for Line<N> {
    ghost use Rattle.std.specs.Prelude.{◌-◌, ◌++◌, ℕ, List, length, take};
    ghost use Rattle.text_line.specs.Line.{Within, zeros};
    ghost use Rattle.text_line.specs.Letters.{bytes_counted, zeros_after};

    ghost Value = { List ℕ };

    ghost view = { λ line. take line.count line.letters };

    ghost invariant = { λ line. Within N line.count line.letters };

    ghost inverse = { λ bytes. record { letters = bytes ++ zeros (N - length bytes); count = length bytes } };

    ghost inverse_ok = { λ a h. rw (bytes_counted h, zeros_after h) };
}

impl<const N: usize> Line<N> {
    // An empty line.
    pub fn new() -> Self
        ensures { result ≡ [] }
    {
        Line {
            letters: [0u8; N],
            count: 0,
        }
    }

    // How many bytes the line has.
    pub fn length(self) -> usize
        ensures counted { result ≡ length self.entry }
        ensures within { result ≤ N }
    {
        self.count
    }

    // The line's bytes.
    pub fn bytes(&self) -> &[u8]
        ensures { result.now ≡ self.now }
    {
        &self.letters[..self.count]
    }

    // A word more.
    pub fn word(mut self, text: &[u8]) -> Self
        ensures { Adds N text.now self.entry result }
    {
        let at = self.count;
        let count = text.len().min(N - at);
        self.letters[at..at + count].copy_from_slice(&text[..count]);
        self.count = at + count;
        self
    }

    // One byte more.
    pub fn letter(self, letter: u8) -> Self
        ensures { Adds N (letter ∷ []) self.entry result }
    {
        self.word(&[letter])
    }

    // A number in decimal, without leading zeros.
    pub fn decimal(self, n: u32) -> Self
        ensures { Adds N (decimal_of n) self.entry result }
    {
        let last = digit((n % 10) as u16);
        if n < 10 {
            return self.letter(last);
        }
        self.decimal(n / 10).letter(last)
    }

    // A byte in two hexadecimal digits.
    pub fn byte(self, n: u8) -> Self
        ensures { Adds N (two_digits n) self.entry result }
    {
        self.word(&[digit(n as u16 / 16), digit(n as u16)])
    }

    // A program address in three hexadecimal digits.
    pub fn address(self, n: u16) -> Self
        ensures { Adds N (three_digits n) self.entry result }
    {
        self.word(&[digit(n / 256), digit(n / 16), digit(n)])
    }

    // Spaces until the line has as many bytes as `column` says; none where it has them already.
    pub fn spaces_to(self, column: usize) -> Self
        ensures { Adds N (spaces (column - length self.entry)) self.entry result }
    {
        let missing = column.saturating_sub(self.count).min(N);
        self.word(&[b' '; N][..missing])
    }

    // Writes the line from the buffer's first byte, where it fits, and answers how many bytes it has.
    pub fn write(self, buffer: &mut [u8]) -> Option<usize>
        ensures { Writes self.entry buffer.old buffer.new result }
    {
        let bytes = self.bytes();
        let count = bytes.len();
        if buffer.len() < count {
            return None;
        }
        buffer[..count].copy_from_slice(bytes);
        Some(count)
    }
}
