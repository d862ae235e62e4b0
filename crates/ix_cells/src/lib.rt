//! Cells of netlists: the names of a netlist's signals, how a net grows cell by cell, and the cells of each kind of operation
//! that makes its result of its arguments.
#![tactic(auto)]

mod arithmetic;
mod cells;
mod comparing;
mod extending;
mod kinds;
mod lookups;
mod naming;
mod operand;
mod shapes;
mod shifting;
mod signal;
mod truths;

pub use cells::constant;
pub use kinds::compute;
pub use naming::name;
pub use operand::Operand;
pub use signal::{Signal, Wire};
