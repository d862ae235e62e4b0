//! The nets that Verilog modules are, the first line whose widths disagree (IEEE 1364-2005, 5.4 and 6.1), and the first name that stands twice.
#![tactic(auto)]

mod error;
mod fit;
mod laws;
mod lines;
mod nets;
mod number;
mod right;
mod table;
mod twice;

pub use error::NetErr;
pub use laws::nets_laws;
pub use nets::nets_in;
pub use twice::first_twice;
