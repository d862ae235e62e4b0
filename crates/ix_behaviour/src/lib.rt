//! Behaviours of extensions with their names resolved, and that those of well-formed extensions are typed.
#![tactic(auto)]

mod laws;
mod which;

pub use laws::{access_laws, behaviour_laws, constants_law};
pub use which::Which;
