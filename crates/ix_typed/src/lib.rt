//! Typed trees by cases, one case a form, and that what is judged of a tree is the typed tree that erases to it.
#![tactic(auto)]

mod laws;

pub use laws::form_laws;
