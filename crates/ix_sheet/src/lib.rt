//! Datasheets of cores, and what a schedule is: the problem, its legal schedules, their cost, and the least of them.
#![tactic(auto)]

mod laws;
mod problem;
mod read;
mod rules;
mod sheet;
mod window;

pub use laws::{bounds_law, chosen_law, cycle_law, flow_law, minimum_law, problem_law};
pub use problem::{Arc, Bound, Node, Problem, arc_of_bound};
pub use read::read_sheet;
pub use sheet::{Sheet, SheetErr, native_windows};
pub use window::{latency, mode_window, weight};
