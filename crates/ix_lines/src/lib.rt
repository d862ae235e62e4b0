//! Texts of lines, lines of words, words as numbers.
#![tactic(auto)]

mod line;
mod word;

pub use line::{counted, is_end, labelled, parted, parts};
pub use word::{behind, is_label, number};
