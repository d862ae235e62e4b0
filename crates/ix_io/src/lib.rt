//! The outside of the tool: files that are read in parts, an output that is written in parts, and whole reads and
//! writes over them.
#![tactic(auto)]

mod calls;
mod files;
mod host;
mod mem;
mod out;
mod read;
mod shelf;
mod sink;
mod sure;
mod write;

pub use host::{HostShelf, HostSink};
pub use mem::{MemShelf, MemSink};
pub use out::Out;
pub use read::{MOST_BYTES, ReadErr, read_all};
pub use shelf::{Failed, Shelf};
pub use sink::Sink;
pub use sure::{SureShelf, SureSink};
pub use write::{WriteErr, write_all};
