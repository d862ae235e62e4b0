//! What a tree is judged by: the roles of names, and the state in which a statement is judged.
#![tactic(auto)]

mod laws;
mod names;
mod role;
mod state;
mod taken;
mod targets;

pub use laws::typing_laws;
pub use names::Names;
pub use role::{Field, Named, Role, Shape};
pub use state::{Body, Front, Setting, State};
pub use taken::TakenNames;
pub use targets::{Target, Targets};
