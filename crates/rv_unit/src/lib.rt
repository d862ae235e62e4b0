//! Decoupled behaviours behind the pipeline: which registers have an outstanding write, what stands in units, and which unit
//! writes.
#![tactic(auto)]

mod board;
mod entry;
mod laws;
mod numbering;
mod stepping;
mod survey;
mod units;

pub use board::Board;
pub use entry::Entry;
pub use ix_plan::Target;
pub use laws::unit_laws;
pub use numbering::unit_of;
pub use units::Units;
