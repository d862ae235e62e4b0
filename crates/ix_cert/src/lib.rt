//! Reports of schedules with their certificates: their text, and the check that believes nothing but the report itself.
#![tactic(auto)]

mod bound_test;
mod check;
mod cycle;
mod fields;
mod item;
pub mod laws;
mod lines;
mod print;
mod read;
mod report;
mod state;
mod steps;
mod sum;
mod verdict;
mod word;

pub use print::print_report;
pub use read::read_report;
pub use report::{CertErr, Report, ReportBlock};
pub use verdict::certify;
