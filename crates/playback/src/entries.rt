// A record's body, entry by entry.
ghost use Rattle.std.specs.Prelude.{◌≡◌};
ghost use Rattle.playback.specs.Entries.{Leads, is_body};

use crate::Entry;

// The entry that a body begins with and the number of its bytes, if it begins with one: its kind is its first byte, and
// it is not cut. Kind first, then length: one pattern for both tests the length first and looks the number of bytes up in
// a table, and whoever goes from entry to entry waits for that.
pub fn first_entry(body: &[u8]) -> Option<(Entry, usize)>
    ensures { Leads body.now result }
{
    match body {
        [0, operands @ ..] => match operands {
            [request, ..] => Some((Entry::Step(*request), 2)),
            _ => None,
        },
        [1, operands @ ..] => match operands {
            [address, value, ..] => Some((Entry::Store(*address, *value), 3)),
            _ => None,
        },
        [2, ..] => Some((Entry::Reset, 1)),
        _ => None,
    }
}

// Whether a body is entries to its end.
pub fn is_body(body: &[u8]) -> bool
    ensures { result ≡ is_body body.now }
{
    let mut rest = body;
    // A loop: where the next entry begins only this one tells.
    while let Some((_, size)) = first_entry(rest) {
        rest = &rest[size..];
    }
    rest.is_empty()
}
