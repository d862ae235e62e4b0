//! The rows of a pipeline with an extension: one after another, what its stages hold, and what each leaves behind.
#![tactic(auto)]

mod engine;
mod entering;
mod filling;
mod front;
mod kept;
mod moving;
mod owing;
mod paying;
mod reading;
mod showing;
mod trying;

pub use engine::make_row;
pub use front::{Front, Kept};
pub use kept::first_kept;
pub use owing::{Owed, Owing};
pub use reading::Operands;
