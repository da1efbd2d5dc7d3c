// Intel HEX read into an image, or refused with the line at fault; and the CRC-32 of bytes.
#![tactic(auto)]

ghost use Rattle.std.specs.Prelude.{◌≡◌};
ghost use Rattle.intel_hex.specs.declared.HexError.TheVariants.{Line};

pub mod crc;
mod digits;
mod image;
mod lines;
mod place;
pub mod read;
mod record;
mod take;

pub use digits::digit_of;

// Why a file is refused.
#[derive(Clone, Copy, Debug, PartialEq, Eq)]
pub enum Fault {
    NoColon,
    BadDigit,
    WrongLength,
    BadChecksum,
    UnknownType,
    NonZeroBase,
    OutsideImage,
    DifferingData,
    AfterEnd,
    NoEnd,
}

// A line at fault, by its number, from 1.
#[derive(Clone, Copy, Debug, PartialEq, Eq)]
pub struct LineFault {
    pub line: usize,
    pub fault: Fault,
}

#[derive(Clone, Copy, Debug, PartialEq, Eq)]
pub enum HexError {
    Line(LineFault),
    // The lent image has neither 2048 nor 4096 bytes.
    ImageLength,
}

impl From<LineFault> for HexError {
    ghost from_gives = { λ at e. e ≡ Line at };

    fn from(at: LineFault) -> HexError {
        HexError::Line(at)
    }
}
