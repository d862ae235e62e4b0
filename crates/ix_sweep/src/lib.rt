//! The least period at which a behaviour has a schedule (this project's choice of what is searched).
#![tactic(auto)]

mod answer;
mod contradicted;
mod laws;
mod period;
mod sweep;

pub use answer::{Entry, Least};
pub use laws::period_law;
pub use period::at_period;
pub use sweep::least;
