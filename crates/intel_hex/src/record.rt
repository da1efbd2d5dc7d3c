// A record: pairs of hexadecimal digits, each a byte.
ghost use Rattle.std.specs.Prelude.{◌+◌, ◌*◌, ◌<◌, ◌≤◌, ◌≡◌, true, length};
ghost use Rattle.intel_hex.specs.Digits.{are_digits, byte_at, bytes_of, total};
ghost use Rattle.intel_hex.specs.Place.{address_of};

use crate::digits::digit_of;

// Count, address, type, so many data bytes, and checksum.
#[derive(Clone, Copy)]
pub struct Record<'a> {
    pub digits: &'a [u8],
    ghost are_digits: { are_digits digits.now ≡ true },
    ghost whole: { length digits.now ≡ 10 + byte_at digits.now 0 * 2 },
}

impl<'a> Record<'a> {
    // The byte of the pair k, from 0.
    pub fn byte(self, k: usize) -> u8
        requires { k * 2 + 1 < length self.digits.now }
        ensures { result ≡ byte_at self.entry.digits.now k }
    {
        byte_in(self.digits, k)
    }

    // How many data bytes there are.
    pub fn count(self) -> usize
        ensures { result ≡ byte_at self.entry.digits.now 0 }
    {
        usize::from(self.byte(0))
    }

    // The address of the first of them.
    pub fn address(self) -> usize
        ensures { result ≡ address_of (bytes_of self.entry.digits.now) }
    {
        usize::from(self.byte(1)) * 256 + usize::from(self.byte(2))
    }

    // The sum of all bytes.
    pub fn sum(self) -> usize
        ensures { result ≡ total (bytes_of self.entry.digits.now) }
    {
        let mut sum = 0;
        for k in 0..self.count() + 5 {
            sum += usize::from(self.byte(k));
        }
        sum
    }
}

// The byte of the pair k, from 0.
pub fn byte_in(digits: &[u8], k: usize) -> u8
    requires digits { are_digits digits.now ≡ true }
    requires within { k * 2 + 1 < length digits.now }
    ensures { result ≡ byte_at digits.now k }
{
    let high = digit_of(digits[k * 2]).unwrap();
    let low = digit_of(digits[k * 2 + 1]).unwrap();
    high * 16 + low
}
