//! What the effects of the behaviours of extensions depend on, by the operations of their graphs.
#![tactic(auto)]

mod laws;

pub use laws::depend_laws;
