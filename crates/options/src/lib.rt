// The decisions of the command `st62`, on slices: what a command line asks for, word by word, and which image a file
// holds.
#![tactic(auto)]

pub mod by_number;
pub mod command_line;
pub mod image;
pub mod numbers;
pub mod places;
pub mod wired;
pub mod words;

// What the user asked for.
#[derive(Clone, Copy, Debug, PartialEq, Eq)]
pub enum Command {
    Check,
    Certify,
    List,
    Trace,
    Size,
    Play,
    Help,
    Version,
}
