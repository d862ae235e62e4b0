//! The texts of runs (this project's choice): of a sequential run a line a step and the stop, and of any run the state behind
//! it, told to a sink.
#![tactic(auto)]

mod record_text;
mod run_writing;
mod state_text;
mod state_writing;

pub use record_text::{put_step, put_stop_line};
pub use run_writing::{RunErr, write_run};
pub use state_text::{put_head, put_head_lines, put_memory_word};
pub use state_writing::{make_room, write_memory, write_state};
