//! Designs: the graph, the mode and the times of each behaviour, the nets, and when a net serves a behaviour.
#![tactic(auto)]

mod design;
mod worked;

pub use design::{Design, Plan, Target};
pub use ix_graph::Mode;
pub use ix_ports::Letter;
pub use worked::worked_units;
