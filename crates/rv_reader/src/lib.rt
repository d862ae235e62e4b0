//! The reader of the text of a trace: its rows as the text shows them, or the first line that fits
//! no form in its place.
#![tactic(auto)]

mod hold;
mod lines;
mod mark;
mod read;
mod row;
mod state;
mod word;
mod write;

pub use read::{ReadErr, TraceRead, read_trace};
