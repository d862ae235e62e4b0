//! The design of an extension on the core of a datasheet: the plan of each behaviour, and the net that serves it.
#![tactic(auto)]

mod building;
mod designing;
mod room;

pub use building::{Built, build};
pub use designing::design;
