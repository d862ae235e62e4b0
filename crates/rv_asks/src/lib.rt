//! What the laws of a pipeline's rows ask of an instruction on a core with an extension, read off the operations of its plan, or
//! off its base row.
#![tactic(auto)]

mod acts;
mod asking;
mod asks;
mod outlines;

pub use asking::{Asking, asking_of, asks_of};
pub use asks::Asks;
