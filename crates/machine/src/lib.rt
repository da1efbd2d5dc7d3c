// The ST62 machine: control beside the stack, flags and data bytes; step, run, reset, host store and reading a byte.
#![tactic(auto)]

mod actions;
mod advance;
mod execute;
mod execute_word;
mod fetch;
mod pairs;
pub mod reading;
pub mod run;
mod run_step;
pub mod state;
pub mod step;
mod steps;

pub use actions::request_in;
use alu::Flags;
use control::Control;
use data::Origin;
use isa::{Decoded, Refusal, Source};
pub use reading::Reading;

// Normal and interrupt mode have a flag pair each; the other three modes share the NMI pair.
#[derive(Clone, Copy, Debug, PartialEq, Eq)]
pub struct FlagPairs {
    pub normal: Flags,
    pub interrupt: Flags,
    pub nmi: Flags,
}

// The machine. Of the 256 bytes the 64 under the ROM window (40h-7Fh) are never read and never change.
#[derive(Clone, Copy, Debug, PartialEq, Eq)]
pub struct Machine {
    pub control: Control,
    pub stack: [u16; 6],
    pub flags: FlagPairs,
    pub bytes: [u8; 256],
}

// What an instruction that does not stop makes of control and of the flag pair in use. These are eight bytes, which would
// go through one register as a number and be taken apart again, at a third of a run's time: so there is room for one more.
#[derive(Clone, Copy, Debug, PartialEq, Eq)]
pub struct Executed {
    pub control: Control,
    pub flags: Flags,
    pub room: Room,
}

// A byte that says nothing.
#[derive(Clone, Copy, Debug, PartialEq, Eq)]
pub enum Room {
    Spare,
}

// What a step is about to do: it takes a request, is idle, or executes the instruction at PC; or it is refused, or what
// stands at PC is no instruction. Four cases of one list, as its definition has them, and so no Result.
#[derive(Clone, Copy, Debug, PartialEq, Eq)]
pub enum Action {
    Takes(Source),
    Idles,
    Executes(Decoded),
    Refused(Refusal),
}

// A step's answer (its cycles, or why it was refused or stopped), the origin of the data operand that it read, if any,
// and what it was about to do.
#[derive(Clone, Copy, Debug, PartialEq, Eq)]
pub struct StepReport {
    pub answer: Result<u8, Refusal>,
    pub read: Option<Origin>,
    pub action: Action,
}

// A run's answer: the steps completed, their cycles, and how it ended.
#[derive(Clone, Copy, Debug, PartialEq, Eq)]
pub struct Report {
    pub steps: u32,
    pub cycles: u32,
    pub ending: Result<(), Refusal>,
}

// What steps make of all but the data bytes and the stack: control, and flags, the pair in use or all of them; and what
// they report. Data bytes and stack are lent apart, as the C interface has them, so no struct holds all four.
#[derive(Clone, Copy, Debug, PartialEq, Eq)]
pub struct Progress<F, R> {
    pub control: Control,
    pub flags: F,
    pub report: R,
}

// A step, with its answer; the steps of a run in one mode; a step; and a run.
pub type Advanced = Progress<Flags, Result<u8, Refusal>>;

pub type Part = Progress<Flags, Report>;

pub type StepProgress = Progress<FlagPairs, StepReport>;

pub type RunProgress = Progress<FlagPairs, Report>;

// A machine after a step or a run, and the report.
#[derive(Clone, Copy, Debug, PartialEq, Eq)]
pub struct After<R> {
    pub machine: Machine,
    pub report: R,
}

pub type Stepped = After<StepReport>;

pub type Ran = After<Report>;

// A machine after a host store, and whether it was done.
#[derive(Clone, Copy, Debug, PartialEq, Eq)]
pub struct Stored {
    pub machine: Machine,
    pub ending: Result<(), Refusal>,
}
