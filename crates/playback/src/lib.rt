// Records of a session, and playing them on the bench (document 02, W-206 and W-207). It stands above the chip: every
// entry is a key of `bench`, pressed on one machine, and steps in a row are one run.
#![tactic(auto)]

mod entries;
mod header;
pub mod play;
mod row;

use isa::Refusal;
use machine::Machine;

// An entry of a record: a step with its request byte, a host store of a value at an address, or a reset.
#[derive(Clone, Copy, Debug, PartialEq, Eq)]
pub enum Entry {
    Step(u8),
    // Address and value.
    Store(u8, u8),
    Reset,
}

// The machine as a playing left it, and how far it came: the entries played, which is also the number of the entry that
// ended it, their cycles, and how it ended.
#[derive(Clone, Copy, Debug, PartialEq, Eq)]
pub struct Played {
    pub machine: Machine,
    pub entries: u32,
    pub cycles: u32,
    pub ending: Result<(), Refusal>,
}
