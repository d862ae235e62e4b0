//! What a pipeline meets from outside: for how many rows each access of the memory waits, and in which rows an interrupt line is raised.
#![tactic(auto)]

mod laws;
mod lines;
mod waits;

pub use laws::waits_are_bounded;
pub use lines::Lines;
pub use waits::Waits;
