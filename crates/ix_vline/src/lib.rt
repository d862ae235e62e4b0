//! The lines of Verilog modules by their kinds, and the words that may stand at their places.
#![tactic(auto)]

mod kind;
mod laws;

pub use kind::{Kind, Right, Slot};
pub use laws::line_laws;
