//! The text of an assembly source: its lines, their labels and operands, names and numbers; and
//! the operands of an extension's instruction, with the word that they make.
#![tactic(auto)]

mod custom;
mod filling;
mod indexing;
mod line;
mod names;
mod number;
mod operand;
mod verdict;

pub use custom::{CustomForm, custom_forms, custom_word};
pub use line::{indexed, instruction, is_name, label, lines, name, operands, trimmed};
pub use names::{mnemonic, register};
pub use number::{Number, read_number};
pub use operand::Operand;
pub use verdict::Verdict;
