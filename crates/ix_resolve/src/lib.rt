//! Behaviours of extensions with their names resolved.
#![tactic(auto)]

mod behaviour;
mod marks;
mod parts;
mod stores;

pub use behaviour::{Resolved, resolve};
