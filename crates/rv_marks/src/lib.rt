//! Is a row right in its moves, its fetch, its successors, its unit and its stop?
#![tactic(auto)]

mod fetching;
mod moving;
mod names;
mod still;
mod stopping;
mod succeeding;

pub use fetching::{fetches_rightly, unit_rightly};
pub use moving::{is_cell_stop, moves_rightly};
pub use still::succeeds_behind;
pub use stopping::stops_rightly;
pub use succeeding::succeeds_rightly;
