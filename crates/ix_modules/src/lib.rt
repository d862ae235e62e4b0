//! The Verilog text of the modules of an extension on the core of a datasheet.
#![tactic(auto)]

mod laws;
mod printing;

pub use laws::modules_laws;
pub use printing::modules_text;
