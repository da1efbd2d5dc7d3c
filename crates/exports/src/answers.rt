// Answers as one number: bits 0 to 7 the refusal's or stop's number (0: none), bits 8 to 23 its address, bits 24 to 55
// a value.
ghost use Rattle.std.specs.Prelude.{◌≡◌};
ghost use Rattle.isa.specs.Refusals.{numbered, answered};
ghost use Rattle.exports.specs.Answers.{word, refusal_word, invalid_word, answer_word, size_word, ended_word};
ghost use Rattle.exports.specs.Answers.{origin_number, rom_address, origin_word, step_word, reading_word};
ghost use Rattle.exports.specs.Answers.{is_refused_run};

use data::Origin;
use gauge::Measured;
use isa::refusals::number_of;
use isa::rom::is_image_length;
use isa::{Number, Refusal};
use machine::{Reading, StepReport};

// What is done, with its value.
pub fn done(value: u32) -> u64
    ensures { result ≡ word 0 0 value }
{
    value as u64 * 0x1000000
}

pub fn refused(refusal: Refusal) -> u64
    ensures { result ≡ refusal_word (numbered refusal) }
{
    match number_of(refusal) {
        Number::Plain(number) => number as u64,
        Number::Located(number, address) => number as u64 + address as u64 * 0x100,
    }
}

// Step and run on an invalid state: 1 comes before 2.
pub fn invalid_state(image: &[u8]) -> u64
    ensures { result ≡ invalid_word image.now }
{
    if is_image_length(image.len()) {
        refused(Refusal::IllFormedMachine)
    } else {
        refused(Refusal::ImageLength)
    }
}

// An origin by number, 0 where nothing was read.
fn origin_number(read: Option<Origin>) -> u8
    ensures { result ≡ origin_number read }
{
    match read {
        None => 0,
        Some(Origin::Ram) => 1,
        Some(Origin::Register) => 2,
        Some(Origin::Rom(_)) => 3,
        Some(Origin::NoRom) => 4,
    }
}

// The ROM address of a byte that the ROM window showed, else 0.
fn rom_address(read: Option<Origin>) -> u16
    ensures { result ≡ rom_address read }
{
    match read {
        Some(Origin::Rom(address)) => address,
        None | Some(Origin::Ram | Origin::Register | Origin::NoRom) => 0,
    }
}

// A byte or a step's cycles, with an origin above it.
fn origin_word(value: u8, read: Option<Origin>) -> u64
    ensures { result ≡ origin_word value read }
{
    let number = origin_number(read);
    let address = rom_address(read);
    done(value as u32 + number as u32 * 0x100 + address as u32 * 0x10000)
}

// The words of a step, a reading, a run and a width have values of four types: one function for all would take a
// closure, and leave as many lines at each call.
pub fn step_word(report: StepReport) -> u64
    ensures { result ≡ step_word (answered report.answer) report.read }
{
    match report.answer {
        Ok(cycles) => origin_word(cycles, report.read),
        Err(refusal) => refused(refusal),
    }
}

pub fn reading_word(answer: Result<Reading, Refusal>) -> u64
    ensures { result ≡ reading_word (answered answer) }
{
    match answer {
        Ok(Reading { byte, origin }) => origin_word(byte, Some(origin)),
        Err(refusal) => refused(refusal),
    }
}

// What a run or a host store answers, which has no value.
pub fn ending_word(ending: Result<(), Refusal>) -> u64
    ensures { result ≡ ended_word (answered ending) }
{
    match ending {
        Ok(()) => done(0),
        Err(refusal) => refused(refusal),
    }
}

// Whether a run was refused: a refusal has no address, a stop has one.
pub fn is_refused(ending: Result<(), Refusal>) -> bool
    ensures { result ≡ is_refused_run (answered ending) }
{
    match ending {
        Ok(()) => false,
        Err(refusal) => matches!(number_of(refusal), Number::Plain(_)),
    }
}

// The levels that the check or the maker answers, or the length of an instruction that was written.
pub fn answer_word(answer: Result<u8, Refusal>) -> u64
    ensures { result ≡ answer_word (answered answer) }
{
    match answer {
        Ok(value) => done(value as u32),
        Err(refusal) => refused(refusal),
    }
}

// The width in the low 16 bits of the value, the steps above it.
pub fn size_word(measured: Result<Measured, Refusal>) -> u64
    ensures { result ≡ size_word (answered measured) }
{
    match measured {
        Ok(Measured { width, steps }) => done(width as u32 + steps as u32 * 0x10000),
        Err(refusal) => refused(refusal),
    }
}
