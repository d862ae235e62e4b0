//! What drives the inputs of modules, tried on rows that are written out: the inputs are those of the table of the
//! ports, and lists that differ in one port are not.
#![tactic(auto)]

mod laws;

pub use laws::{
    adding_run, diverting_run, driven_net, forwarding_run, freezing_run, leaping_run, linking_run,
    loading_run, waiting_run,
};
