//! Does each cell of a row show the first hold that is true of it, as the row's own marks say?
#![tactic(auto)]

mod behind;
mod board;
mod expected;
mod judging;
mod older;
mod search;
mod want;

pub use behind::holds_behind;
pub use judging::{holds_rightly, is_held};
