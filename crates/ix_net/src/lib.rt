//! Netlists: modules of assignments and registers (IEEE 1364-2005), when one is valid, and what its names stand for.
#![tactic(auto)]

mod gates;
mod keywords;
mod laws;
mod netlist;
mod ordering;
mod tables;
mod wires;

pub use gates::Gate;
pub use keywords::is_name;
pub use laws::has_one_valuation;
pub use netlist::{Bank, Cell, Form, Net, Port};
pub use wires::{Latch, Wiring, is_valid, wire};
