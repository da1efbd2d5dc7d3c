// The bench: one machine, lent to each key's operation, and what holds of every list of calls on it
// (specs/Session.antt).
#![tactic(auto)]

pub mod keys;
pub mod sequence;
pub mod services;
