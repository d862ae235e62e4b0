//! The printed texts of an extension: its listing, and the line of its refusal.
#![tactic(auto)]

mod listed;
mod put;
mod refused;

pub use listed::listing;
pub use refused::refusal;
