//! The types of results: what an operator gives at each pair of types, or why it has no result there.
#![tactic(auto)]

mod laws;
mod result_type;

pub use laws::result_laws;
pub use result_type::{TypeErr, common, embeds, type_of_binary, type_of_unary};
