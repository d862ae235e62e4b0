//! What a token leads to in the sections of a text: registers, tables, instructions and always-blocks.
#![tactic(auto)]

pub mod entry;
pub mod fixed;
pub mod instr;
pub mod section;
