//! What a word comes to at a pc, with its operands, the custom registers and the memory that it sees: an instruction evaluated once.
#![tactic(auto)]

mod laws;
mod parts;
mod trial;

pub use laws::trial_laws;
pub use parts::{Spawned, apply_native, shown, spawn_writes};
pub use trial::{Trial, try_word};
