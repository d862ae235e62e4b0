//! The ports of a behaviour's module, and their names.
#![tactic(auto)]

mod laws;
mod letter;

pub use laws::worked_ports;
pub use letter::Letter;
