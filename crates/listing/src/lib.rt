// The ST62's instructions as text in the manual's notation, and the line of an address in a listing, made in a line by
// value and written to a lent buffer.
#![tactic(auto)]

pub mod address_line;
pub mod disassemble;
pub mod instruction;
pub mod kinds;
pub mod pages;
pub mod write;

// The most bytes of a line.
pub const MOST: usize = 128;

// A line in the making. What goes beyond its most bytes is cut off.
pub type Line = text_line::Line<MOST>;
