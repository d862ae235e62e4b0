//! Laws of the constants of texts.
#![tactic(auto)]

mod laws;

pub use laws::constant_laws;
