//! What each hart of a barrel retires is the run of its own image, with its states.
#![tactic(auto)]

mod laws;

pub use laws::hart_runs;
