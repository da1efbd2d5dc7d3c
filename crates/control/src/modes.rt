// Modes.
ghost use Rattle.std.specs.Prelude.{◌≡◌};
ghost use Rattle.control.specs.Modes.{mode_beneath, is_reset, mode_number, ModeOf};

use crate::Mode;

// A number that no mode has.
#[derive(Clone, Copy, Debug, PartialEq, Eq)]
pub struct UnknownMode(pub u8);

// The mode that RETI returns to.
pub fn beneath(mode: Mode) -> Mode
    ensures { result ≡ mode_beneath mode }
{
    match mode {
        Mode::Reset | Mode::Normal | Mode::Interrupt | Mode::NmiOverNormal => Mode::Normal,
        Mode::NmiOverInterrupt => Mode::Interrupt,
    }
}

pub fn is_reset(mode: Mode) -> bool
    ensures { result ≡ is_reset mode }
{
    mode == Mode::Reset
}

// A mode as a number in a machine's state. A table: each number stands beside its name.
pub fn mode_number(mode: Mode) -> u8
    ensures { result ≡ mode_number mode }
{
    match mode {
        Mode::Reset => 0,
        Mode::Normal => 1,
        Mode::Interrupt => 2,
        Mode::NmiOverNormal => 3,
        Mode::NmiOverInterrupt => 4,
    }
}

impl From<Mode> for u8 {
    ghost from_gives = { λ mode number. number ≡ mode_number mode };

    fn from(mode: Mode) -> u8 {
        mode_number(mode)
    }
}

impl TryFrom<u8> for Mode {
    type Error = UnknownMode;

    ghost try_from_gives = { ModeOf };

    fn try_from(number: u8) -> Result<Self, UnknownMode> {
        match number {
            0 => Ok(Mode::Reset),
            1 => Ok(Mode::Normal),
            2 => Ok(Mode::Interrupt),
            3 => Ok(Mode::NmiOverNormal),
            4 => Ok(Mode::NmiOverInterrupt),
            _ => Err(UnknownMode(number)),
        }
    }
}
