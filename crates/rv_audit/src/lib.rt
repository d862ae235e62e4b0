//! The audit of traces: is a text that of a lawful run of this image on the core of this design? No
//! machine is asked.
#![tactic(auto)]

mod auditing;
mod judging;
mod laws;

pub use auditing::{AuditErr, audit};
pub use laws::answer_laws;
