//! The words of a command, and what they stand for: a line of the table of commands, and the files that it names, each read whole and judged before the next.
#![tactic(auto)]

pub mod command;
pub mod status;
pub mod value;
