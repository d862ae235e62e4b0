//! The checker: a tree without loops gets its types, or the first rule of the language that it breaks is told.
#![tactic(auto)]

mod assign;
mod element;
mod error;
mod expression;
mod judged;
mod locals;
mod node;
mod parts;
mod pieces;
mod same;
mod statement;
mod states;
mod target;
mod types;
mod words;

pub use error::CheckErr;
pub use pieces::{declare_fields, pieces as check_pieces};
pub use statement::statement as check_statement;
pub use states::{globals, states as check_states};
