//! What two harts of a barrel have in each row: each by itself, as its own image gives it, and both
//! in one row.
#![tactic(auto)]

mod event;
mod laws;
mod row;

pub use event::{Event, EventAt};
pub use laws::harts_are_apart;
pub use row::{BarrelCell, BarrelRow, HartPart, Turn};
