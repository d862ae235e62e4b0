//! Prints netlists as Verilog text (IEEE 1364-2005).
#![tactic(auto)]

mod printing;
mod put;

pub use printing::print;
