//! What a standing design promises of what a word may see: the laws that a pipeline with an extension rests on.
#![tactic(auto)]

mod laws;

pub use laws::sight_laws;
