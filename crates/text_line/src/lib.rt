// A line of text in the making, in an array as long as the longest line: what goes beyond it is cut off, so that no
// piece has to be refused. Its pieces are words, numbers in decimal and in hexadecimal, and spaces up to a column.
#![tactic(auto)]

mod digit;
mod line;

pub use line::Line;
