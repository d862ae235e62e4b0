//! Encodings: from a typed text to the extension that it stands for, or the first rule on encodings and counts that it breaks.
#![tactic(auto)]

mod constant;
mod encoding;
mod error;
mod instruction;
mod overlap;
mod parts;
mod program_counter;
mod rules;
mod state;
mod whole;

pub use error::EncodeErr;
pub use whole::encode;
