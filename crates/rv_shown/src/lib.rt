//! What the text of a trace shows of its rows: no words, no commits, and no hold of a flushed cell.
#![tactic(auto)]

mod laws;
mod shown;

pub use laws::texts_shown;
pub use shown::{ShownCell, ShownRow, Span};
