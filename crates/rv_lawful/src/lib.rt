//! Which rows of a pipeline with an extension are lawful, what they promise of the sequential run, and what the word of a cell may see.
#![tactic(auto)]

mod laws;

pub use laws::no_rows;
