// Control: the program counter, the stack of return addresses, the mode, sleep, and requests. Nothing here knows data
// bytes or flags.
#![tactic(auto)]

pub mod modes;
pub mod requests;
pub mod stack;
pub mod transfers;
mod update;
pub mod well_formed;

#[derive(Clone, Copy, Debug, PartialEq, Eq)]
pub enum Mode {
    Reset,
    Normal,
    Interrupt,
    NmiOverNormal,
    NmiOverInterrupt,
}

// The stack is lent beside it, since control alone is handed on by value at each step: its slots 0 to levels - 1 are in
// use, and the last of them is the top.
#[derive(Clone, Copy, Debug, PartialEq, Eq)]
pub struct Control {
    pub pc: u16,
    pub levels: u8,
    pub mode: Mode,
    pub asleep: bool,
}

// What stops control: a push on a full stack or a pop on an empty one.
#[derive(Clone, Copy, Debug, PartialEq, Eq)]
pub enum Stop {
    Full,
    Empty,
}
