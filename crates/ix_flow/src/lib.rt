//! Behaviours as operation graphs.
#![tactic(auto)]

mod error;
mod flow;
mod graph;
mod order;

pub use error::FlowErr;
pub use flow::graph_of_resolved;
