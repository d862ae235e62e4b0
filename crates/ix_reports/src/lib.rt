//! From a behaviour's schedule, or from why it has none, to its part of a report.
#![tactic(auto)]

mod block;

pub use block::{scheduled_block, unscheduled_block, version};
