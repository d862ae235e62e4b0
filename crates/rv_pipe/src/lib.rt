//! The pipeline of a core with an extension: row after row, with the modules of its design beside it, and the text of a run.
#![tactic(auto)]

mod machine;
mod outstanding;
mod pipeline;
mod running;

pub use machine::Machine;
pub use running::write_design_run;
