//! Which line of a Verilog module (IEEE 1364-2005, 12) stands at the front of words, and what an open module has declared.
#![tactic(auto)]

mod found;
mod guard;
mod opened;
mod role;
mod scope;
mod slot;
mod word;

pub use found::{Found, line_in};
pub use scope::Scope;
pub use word::highest;
