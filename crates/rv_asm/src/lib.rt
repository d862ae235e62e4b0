//! Images: the words of a program, read from their text, assembled from a source, and printed; and the waits of a memory and the rows of an interrupt
//! line, read from their texts.
#![tactic(auto)]

mod base;
mod form;
mod image_print;
mod image_text;
mod label;
mod laws;
mod line;
mod lines_text;
mod numbers_text;
mod reading;
mod source;
mod waits_text;

pub use image_print::print_image;
pub use image_text::{TextErr, read_image};
pub use laws::{base_lines_decode, numbers_are_whole};
pub use lines_text::read_lines;
pub use rv_waits::{Lines, Waits};
pub use source::{AsmErr, assemble};
pub use waits_text::read_waits;
