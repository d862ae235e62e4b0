//! What every crate of the project speaks of: types of numbers, bit patterns, lists, names, and want of memory.
#![tactic(auto)]

mod arithmetic;
mod boxes;
mod laws;
mod list;
mod memory;
mod name;
mod number;
mod operator;
mod width;

pub use arithmetic::{binary, cast, is_negative, range, unary, width_of_both};
pub use boxes::{boxed, boxed_pair, boxed_triple, put};
pub use laws::number_laws;
pub use list::List;
pub use memory::Memory;
pub use name::Name;
pub use number::{Bits, Ty, Value};
pub use operator::{BinOp, UnOp};
pub use width::least_width;
