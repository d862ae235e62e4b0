//! The netlist of a behaviour from its graph and its times.
#![tactic(auto)]

mod banks;
mod generating;
mod kept;
mod outputs;
mod ports;
mod results;
mod uses;

pub use generating::generate;
pub use ports::last_of;
