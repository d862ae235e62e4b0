//! Elaboration: from the bytes of a text to its extension, or the first thing in it that is refused.
#![tactic(auto)]

mod error;
mod whole;

pub use error::FrontErr;
pub use whole::elaborate;
