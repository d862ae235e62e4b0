//! Typed trees with their names resolved: a local is a slot, a target a number, a field the bits of the word that its pieces give.
#![tactic(auto)]

mod constant;
mod expression;
mod field;
mod locals;
mod names;
mod statement;
mod types;

pub use locals::Locals;
pub use names::Names;
pub use statement::statements;
pub use types::type_near;
