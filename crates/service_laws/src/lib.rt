//! When a net serves a behaviour, checked on a net that does not.
#![tactic(auto)]

mod laws;

pub use laws::inner_enables;
