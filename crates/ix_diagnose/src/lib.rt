//! A refusal of the tool, told at its line: where it stands in the file, what is wrong, what to
//! write in its place, the line and carets under the place.
#![tactic(auto)]

mod diagnosis;
mod explained;
mod extension;
mod finding;
mod grammar;
mod look;
mod place;
mod report;
mod search;
mod sheet;
mod shown;
mod source;
mod subject;
mod text;
mod trace;
mod words;

pub use diagnosis::diagnose;
pub use explained::explain;
