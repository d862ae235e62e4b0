//! The checker of whole texts: a tree without loops gets its types, or the first rule of the language that it breaks is told.
#![tactic(auto)]

mod always;
mod behaviour;
mod instruction;
mod section;
mod text;

pub use ix_check_parts::CheckErr;
pub use text::check;
