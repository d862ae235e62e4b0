//! The text of two harts in turn (this project's choice): their rows, and the state of each behind them, told to a sink.
#![tactic(auto)]

mod end_writing;
mod row_text;
mod row_writing;

pub use end_writing::write_ends;
pub use row_writing::write_row;
