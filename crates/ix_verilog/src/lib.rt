//! The subset of Verilog (IEEE 1364-2005) that netlists are written in: its words, its lines, and which text denotes which nets.
#![tactic(auto)]

mod laws;
mod right;
mod source;
mod token;
mod word;

pub use laws::subset_laws;
pub use right::{RightSide, Sign};
pub use source::{Assign, Source, Stage, Update};
pub use token::Token;
pub use word::{decimal_in, is_digit, leading_digits, name_in, place_in};
