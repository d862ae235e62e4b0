use crate::right::RightSide;
use ix_bits::{List, Name};
use ix_net::Port;

/// How far the text of a module has come.
#[derive(Clone, Copy, Debug, PartialEq, Eq)]
pub enum Stage {
    /// Within the list of ports.
    Ports,
    /// Behind `input clk;`.
    Lines,
    /// Within `always`.
    Clocked,
    /// Behind `always`.
    Ended,
}

/// A module as it is written, up to some line.
#[derive(Debug, Drop)]
pub struct Source {
    pub name: Name,
    /// The ports behind `clk`.
    pub ports: List<Name>,
    pub inputs: List<Port>,
    pub outputs: List<Port>,
    pub wires: List<Port>,
    pub registers: List<Port>,
    pub assigns: List<Assign>,
    pub updates: List<Update>,
    pub stage: Stage,
}

/// A line `assign target = right;`.
#[derive(Debug, Drop)]
pub struct Assign {
    pub target: Name,
    pub right: RightSide,
}

/// A line `if (enable) target <= source;`.
#[derive(Debug, Drop)]
pub struct Update {
    pub enable: Name,
    pub target: Name,
    pub source: Name,
}
