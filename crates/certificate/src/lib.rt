// The stack-depth certificate: its marks, its rules and their check (document 01, "The certificate" and "Check").
#![tactic(auto)]

pub mod check;
pub mod levels;
pub mod marks;
pub mod successors;
mod vectors;
