//! Loops: each becomes its body once for each value of its variable.
#![tactic(auto)]

mod assigned;
mod error;
mod laws;
mod parts;
mod put;
mod room;
mod scope;
mod size;
mod statement;
mod text;
mod turns;
mod value;

pub use error::UnrollErr;
pub use laws::loop_laws;
pub use text::unroll;
pub use value::{
    binary_value, bits_value, cast_value, choice_value, constant_value, literal_value, unary_value,
};
