//! When a design stands for its extension and its datasheet.
#![tactic(auto)]

mod laws;

pub use laws::served;
