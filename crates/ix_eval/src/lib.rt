//! The effects of behaviours, computed.
#![tactic(auto)]

mod access;
mod effect;
mod laws;
mod prepared;
mod reading;
mod running;
mod scratch;
mod steps;

pub use access::Access;
pub use effect::{Effect, sized_access};
pub use ix_mean::State as Inputs;
pub use laws::load_law;
pub use running::eval;
pub use scratch::Scratch;
