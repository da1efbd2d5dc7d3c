// A line taken: tried as the format says, and what it names put to its place.
ghost use Rattle.std.specs.Prelude.{ℕ, ◌≡◌, List, Option};
ghost use Rattle.intel_hex.specs.Digits.{bytes_of};
ghost use Rattle.intel_hex.specs.Take.{after_base, after_digits, after_line, after_record, step_of};

use crate::Fault;
use crate::digits::is_digits;
use crate::place::place_data;
use crate::record::{Record, byte_in};

// A base of 0 changes nothing; any other is refused.
#[tactic(auto, unfolding(crate::specs::Take::after_base))]
fn take_base(record: Record) -> Result<bool, Fault>
    ensures { (memory : List (Option ℕ)) → step_of result memory ≡ after_base memory (bytes_of record.entry.digits.now) }
{
    if record.count() != 2 {
        return Err(Fault::WrongLength);
    }
    if record.byte(4) != 0 || record.byte(5) != 0 {
        return Err(Fault::NonZeroBase);
    }
    Ok(false)
}

// A record by its type.
#[tactic(auto, unfolding(crate::specs::Take::after_record))]
fn take_record(record: Record, first: usize, memory: &mut [Option<u8>; 4096]) -> Result<bool, Fault>
    ensures { step_of result memory.new
        ≡ after_record first memory.old (bytes_of record.entry.digits.now) }
{
    match record.byte(3) {
        0 => place_data(record, first, memory),
        1 if record.count() != 0 => Err(Fault::WrongLength),
        1 => Ok(true),
        2 | 4 => take_base(record),
        _ => Err(Fault::UnknownType),
    }
}

// What stands after the colon: digits, of the length that the count says, with a sum of 0.
#[tactic(auto, unfolding(crate::specs::Take::after_digits))]
fn take_digits(digits: &[u8], first: usize, memory: &mut [Option<u8>; 4096]) -> Result<bool, Fault>
    ensures { step_of result memory.new
        ≡ after_digits first memory.old digits.now }
{
    if !is_digits(digits) {
        return Err(Fault::BadDigit);
    }
    if digits.len() < 10 || digits.len() != 10 + usize::from(byte_in(digits, 0)) * 2 {
        return Err(Fault::WrongLength);
    }
    let record = Record { digits };
    if record.sum() % 256 != 0 {
        return Err(Fault::BadChecksum);
    }
    take_record(record, first, memory)
}

// A line without its ending. An empty one is passed over, also after the end record. Answers whether the end record was
// read.
#[tactic(auto, unfolding(crate::specs::Take::after_line))]
pub fn take_line(
    line: &[u8],
    ended: bool,
    first: usize,
    memory: &mut [Option<u8>; 4096],
) -> Result<bool, Fault>
    ensures { step_of result memory.new
        ≡ after_line first ended memory.old line.now }
{
    let Some((colon, digits)) = line.split_first() else {
        return Ok(ended);
    };
    if ended {
        return Err(Fault::AfterEnd);
    }
    if *colon != b':' {
        return Err(Fault::NoColon);
    }
    take_digits(digits, first, memory)
}
