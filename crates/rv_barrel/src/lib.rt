//! Two harts in turn in one pipeline with an extension, row by row.
#![tactic(auto)]

mod barrel;
mod cell;
mod events;
mod laws;
mod moving;
mod older;
mod outstanding;
mod owing;
mod paying;
mod showing;
mod side;
mod turning;

pub use barrel::{Barrel, quiet_row};
pub use laws::barrel_laws;
