//! Behaviours run on terms: a store in which equal terms are shared as they are made.
#![tactic(auto)]

mod branch;
mod effect;
mod make;
mod merge;
mod merges;
mod node;
mod run;
mod slots;
mod source;
mod store;
mod targets;
mod term;

pub use effect::{Effect, effect_of};
pub use merge::is_bit;
pub use node::Node;
pub use source::Source;
pub use store::Store;
pub use targets::Target;
pub use term::u1;
