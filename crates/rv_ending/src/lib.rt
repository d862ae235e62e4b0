//! Does a trace end with the state behind its rows, and in which line does it first differ?
#![tactic(auto)]

mod compare;
mod state;

pub use compare::Compared;
pub use state::differing_line;
