//! Operation graphs: what a behaviour does, as operations on the results of earlier operations.
#![tactic(auto)]

mod args;
mod graph;
mod kind;
mod laws;
mod role;

pub use args::{Arg, Args};
pub use graph::{Graph, Mode, Op};
pub use kind::{Kind, kind_name, kind_number, kind_place, kind_word};
pub use laws::kind_laws;
pub use role::{Role, kind_role};
