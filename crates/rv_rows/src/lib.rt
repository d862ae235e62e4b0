//! What holds of lawful rows, whatever made them, and what an audit asks of a row, kind by kind.
#![tactic(auto)]

mod gone;
mod kinds;
mod known;
mod laws;

pub use gone::gone_facts;
pub use kinds::kinds_are_lawful;
pub use known::{Known, Owed};
pub use laws::row_facts;
