//! The simulator of netlists: the values of a valid net in one cycle after another (IEEE 1364-2005).
#![tactic(auto)]

mod arithmetic;
mod laws;
mod running;
mod sim;

pub use laws::simulators_run;
pub use sim::{Sim, prepare};
