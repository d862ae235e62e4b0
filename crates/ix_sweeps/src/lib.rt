//! The least periods of all behaviours of an extension, with reports that show them, and their text.
#![tactic(auto)]

mod laws;
mod sweeping;
mod text;

pub use laws::sweep_laws;
pub use sweeping::{SweepErr, Swept, sweep, sweep_graph};
pub use text::sweep_text;
