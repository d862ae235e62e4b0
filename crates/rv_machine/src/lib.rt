//! What the rows of a pipeline with an extension keep: each is as its definition has it, and lawful;
//! what is promised of the outputs of modules that such rows drive.
#![tactic(auto)]

mod laws;
mod lives;
mod promising;
mod reads;

pub use laws::rows_laws;
pub use lives::lives_law;
pub use promising::promise_law;
pub use reads::reads_law;
