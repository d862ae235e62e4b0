//! The operation graphs of an extension's behaviours.
#![tactic(auto)]

mod behaviour;

pub use behaviour::graph_of;
