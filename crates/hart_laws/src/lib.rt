//! The definition of the rows of two harts, tried on rows that are written out: those of the base
//! set, of a core that takes some instructions as decoupled, and of one whose jumps come late;
//! and how such rows are printed.
#![tactic(auto)]

mod laws;

pub use laws::{adding_harts, jumping_harts, printed_harts, spawning_harts};
