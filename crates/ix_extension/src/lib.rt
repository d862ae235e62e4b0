//! The extension that a typed text stands for, the rules that it may break, and when an extension is well formed.
#![tactic(auto)]

mod laws;

pub use laws::extension_laws;
