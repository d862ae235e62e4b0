//! What is outstanding behind the rows so far: units, writes that are owed, and where these stand
//! in the run.
#![tactic(auto)]

mod laws;
mod listed;
mod owing;

pub use laws::owing_facts;
pub use owing::Owing;
