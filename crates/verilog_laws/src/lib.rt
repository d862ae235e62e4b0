//! Laws of the Verilog texts that are printed and read.
#![tactic(auto)]

mod trip;

pub use trip::read_printed;
