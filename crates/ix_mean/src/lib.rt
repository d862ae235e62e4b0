//! The meaning of behaviours.
#![tactic(auto)]

mod evaluate;
mod laws;
mod resolved;

pub use evaluate::{State, Written, execute, holds, number, one, two};
pub use laws::{effect_laws, graphs_have_meanings, resolving_law};
pub use resolved::{ResolvedExpr, ResolvedStmt, Types, Writing};
