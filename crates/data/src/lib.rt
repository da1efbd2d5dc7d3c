// Data space, what each instruction does to it and to the flag pair in use, and where a byte that it reads comes from.
// Nothing here knows the PC, the stack or the mode.
#![tactic(auto)]

pub mod effect;
pub mod reads;
pub mod space;

// Where a data byte comes from.
#[derive(Clone, Copy, Debug, PartialEq, Eq)]
pub enum Origin {
    // 00h-3Fh.
    Ram,
    // 80h-FFh.
    Register,
    // The ROM window, with the program address of the byte that it shows.
    Rom(u16),
    // The ROM window where the image has nothing.
    NoRom,
}
