//! Programs that are drawn from a number, and the summary of a run.
#![tactic(auto)]

mod draws;
mod image;
mod laws;
mod summary;
mod word;

pub use image::drawn_image;
pub use laws::drawn_laws;
pub use summary::write_summary;
