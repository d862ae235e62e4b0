//! What a `spawn` body writes in a text that breaks no rule.
#![tactic(auto)]

mod laws;

pub use laws::spawn_laws;
