//! Laws of netlists of behaviours: which times they may have.
#![tactic(auto)]

mod laws;

pub use laws::times_fit;
