// Stored calls as lines: the arguments of a line, and the answers that are printed.
#![tactic(auto)]

pub mod answers;
pub mod arguments;
pub mod bytes;
pub mod errors;
pub mod numerals;
pub mod rooms;
pub mod tally;
