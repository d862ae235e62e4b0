//! Optimal schedules: the times of least cost, a flow that proves the cost, or a contradiction among the bounds.
#![tactic(auto)]

mod bounds;
mod cost;
mod cycle;
mod ends;
mod forest;
mod incidence;
mod longest;
mod meet;
mod network;
mod relax;
mod schedule;
mod search;
mod trees;

pub use bounds::network_of;
pub use cycle::contradiction;
pub use ix_residual::{Path, Residual};
pub use network::Network;
pub use schedule::{SolveErr, Solved, Traced, cycle_of, solve, solve_traced};
