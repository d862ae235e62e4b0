//! Which row of a pipeline drives which input of a behaviour's module, by the rows alone, and the code that drives it.
#![tactic(auto)]

mod driving;
mod feeds;
mod modules;
mod shown;

pub use driving::drive;
pub use feeds::{Carried, Feed, feeds_of};
pub use modules::Module;
pub use shown::{Seat, Shown};
