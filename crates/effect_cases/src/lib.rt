//! What programs of cases share: the state before a behaviour as words of a line, and what `eval` of `ix_eval` asks of it.
#![tactic(auto)]

mod case;
mod given;

pub use case::{Case, case_of};
pub use given::{has_behaviour, values};
