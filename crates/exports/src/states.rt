// From a state's 280 bytes to the machine: 0-255 data; 256, 257 PC; 258 levels; 259 mode; 260 asleep; 261-266 Z and C
// of normal, interrupt and NMI; 267 zero; 268-279 the return addresses. Numbers of two bytes stand low byte first. C lends
// a state as a slice: its length is tested once, and is a premise from there on.
ghost use Rattle.std.specs.Prelude.{◌≡◌, ◌+◌, ◌<◌, ◌↔◌, IsTrue, EachIndex, slice_index, length, take};
ghost use Rattle.exports.specs.Every.{every};
ghost use Rattle.exports.specs.States.{is_flag, is_valid, word_at, pair_at, mode_of, control_at, stack_at, pairs_at};
ghost use Rattle.exports.specs.States.{machine_at};

use alu::Flags;
use control::{Control, Mode};
use machine::{FlagPairs, Machine};

// Whether each byte is 0 or 1.
fn are_flags(bytes: &[u8]) -> bool
    ensures { IsTrue result ↔ EachIndex bytes.now (λ k. slice_index bytes.now k < 2) }
{
    bytes.iter().all(|byte| *byte < 2)
}

// Whether the seven bytes from 260 on are 0 or 1.
fn flags_valid(state: &[u8]) -> bool
    requires { length state.now ≡ 280 }
    ensures { result ≡ every (is_flag state.now) 7 }
{
    are_flags(&state[260..267])
}

// Whether a slice is a valid state.
#[tactic(auto, unfolding(crate::specs::States::is_valid))]
pub fn is_valid(state: &[u8]) -> bool
    ensures { result ≡ is_valid state.now }
{
    state.len() == 280 && state[259] <= 4 && state[267] == 0 && flags_valid(state)
}

// The number of two bytes.
fn word_at(state: &[u8], at: usize) -> u16
    requires { at + 1 < length state.now }
    ensures { result ≡ word_at state.now at }
{
    u16::from_le_bytes([state[at], state[at + 1]])
}

// The mode of a number from 0 to 4.
#[tactic(auto, using(crate::proofs::StateBytes::mode_of_lem))]
fn mode_of(number: u8) -> Mode
    ensures { result ≡ mode_of number }
{
    Mode::try_from(number).unwrap_or(Mode::NmiOverInterrupt)
}

pub fn data_of(state: &[u8]) -> [u8; 256]
    requires { length state.now ≡ 280 }
    ensures { result ≡ take 256 state.now }
{
    let mut bytes = [0u8; 256];
    bytes.copy_from_slice(&state[..256]);
    bytes
}

#[tactic(auto, unfolding(crate::specs::States::stack_at))]
pub fn stack_of(state: &[u8]) -> [u16; 6]
    requires { length state.now ≡ 280 }
    ensures { result ≡ stack_at state.now }
{
    [
        word_at(state, 268),
        word_at(state, 270),
        word_at(state, 272),
        word_at(state, 274),
        word_at(state, 276),
        word_at(state, 278),
    ]
}

// The flag pair at an index.
fn pair_at(state: &[u8], at: usize) -> Flags
    requires { at + 1 < length state.now }
    ensures { result ≡ pair_at state.now at }
{
    Flags {
        zero: state[at] == 1,
        carry: state[at + 1] == 1,
    }
}

#[tactic(auto, unfolding(crate::specs::States::pairs_at))]
pub fn pairs_of(state: &[u8]) -> FlagPairs
    requires { length state.now ≡ 280 }
    ensures { result ≡ pairs_at state.now }
{
    FlagPairs {
        normal: pair_at(state, 261),
        interrupt: pair_at(state, 263),
        nmi: pair_at(state, 265),
    }
}

#[tactic(auto, unfolding(crate::specs::States::control_at))]
pub fn control_of(state: &[u8]) -> Control
    requires { length state.now ≡ 280 }
    ensures { result ≡ control_at state.now }
{
    Control {
        pc: word_at(state, 256),
        levels: state[258],
        mode: mode_of(state[259]),
        asleep: state[260] == 1,
    }
}

// The machine of a state.
#[tactic(auto, unfolding(crate::specs::States::machine_at))]
pub fn unpack(state: &[u8]) -> Machine
    requires { length state.now ≡ 280 }
    ensures { result ≡ machine_at state.now }
{
    Machine {
        control: control_of(state),
        stack: stack_of(state),
        flags: pairs_of(state),
        bytes: data_of(state),
    }
}
