//! What a token leads to in expressions, assignments and declarations.
#![tactic(auto)]

pub mod assign;
pub mod close;
pub mod decl;
mod enter;
pub mod expr;
pub mod place;
