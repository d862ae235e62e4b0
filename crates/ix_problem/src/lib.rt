//! The problem of scheduling a behaviour, and the constraints that its legal schedules meet.
#![tactic(auto)]

mod bounds;
mod chains;
mod problem;
mod reach;

pub use bounds::constraints;
pub use problem::problem_of;
