//! The run of a pipeline with an extension as a value change dump of the ports of its modules (IEEE 1364-2005, section 18.2).
#![tactic(auto)]

mod laws;
mod reading;
mod writing;

pub use laws::wave_laws;
pub use writing::write_design_wave;
