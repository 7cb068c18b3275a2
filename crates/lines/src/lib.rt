// A line of the program `frames`: what it asks for, the bits of an `F` line, and the line that answers.
#![tactic(auto)]

pub mod command;
pub mod lent;
pub mod mask;
pub mod reply;
