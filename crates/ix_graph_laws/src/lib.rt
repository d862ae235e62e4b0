//! Laws of the operation graphs of behaviours.
#![tactic(auto)]

mod laws;

pub use laws::graph_laws;
