//! The modules of a design as they run beside a pipeline: driven, settled and clocked once in each row.
#![tactic(auto)]

mod driver;
mod laws;
mod modules;

pub use driver::Driver;
pub use laws::nets_law;
pub use modules::Modules;
