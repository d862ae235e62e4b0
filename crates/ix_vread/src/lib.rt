//! From Verilog text to the modules and nets that it is (IEEE 1364-2005), or the first place at which it is none.
#![tactic(auto)]

mod error;
mod first;
mod graph;
mod laws;
mod mark;
mod order;
mod part;
mod place;
mod readers;
mod reading;
mod scan;
mod search;
mod sources;
mod words;

pub use error::VErr;
pub use laws::read_laws;
pub use reading::read;
pub use sources::sources_in;
pub use words::words_in;
