//! The definitions of lawful rows, tried on rows that are written out: over runs that are made by hand, and over runs of the base set,
//! some of whose instructions are taken as decoupled, and one of which goes to a handler, their rows are lawful, and lists that differ in one thing
//! are not.
#![tactic(auto)]

mod laws;

pub use laws::{
    adding_run, detour_run, forwarding_run, frozen_run, guessing_run, holding_run, interrupted_run,
    late_entry_run, passing_run, port_run, sharing_run, turning_run, waiting_run,
};
