//! From the tokens of a CoreDSL text to its tree.
#![tactic(auto)]

mod error;
mod step;
mod stmt;
mod verdict;

pub use error::ParseErr;
pub use verdict::parse;
