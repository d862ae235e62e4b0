//! From the words of a Verilog text to its modules (IEEE 1364-2005, 12).
#![tactic(auto)]

mod error;
mod line;
mod modules;
mod right;

pub use error::ParseErr;
pub use modules::modules_in;
