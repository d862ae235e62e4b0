//! The mode of a behaviour by its graph and a datasheet, and the schedule in it (Longnail, execution modes; the rule is this project's choice).
#![tactic(auto)]

mod scheduled;

pub use scheduled::{ModeErr, Scheduled, is_spawning, schedule_of};
