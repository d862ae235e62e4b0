//! Flows over the bounds of a problem, on their way: amounts on bounds, the balances that they do not meet yet, and paths along
//! which amounts move.
#![tactic(auto)]

mod balance;
mod moves;
mod residual;

pub use balance::weight;
pub use residual::{Path, Residual};
