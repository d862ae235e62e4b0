//! From the bytes of a CoreDSL text to its tokens.
#![tactic(auto)]

mod error;
mod number;
mod part;
mod reader;
mod scan;
mod symbol;
mod table;
mod word;

pub use error::LexErr;
pub use reader::lex;
