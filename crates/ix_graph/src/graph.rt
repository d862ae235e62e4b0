use crate::{Args, Kind};
use ix_bits::{Bits, List, Ty};

/// An operation: what it does, on which arguments, and the type of its result. That of a write is `unsigned<1>`,
/// that of a load the type that it loads.
#[derive(Debug, Drop)]
pub struct Op {
    pub kind: Kind,
    pub args: Args,
    pub ty: Ty,
}

/// What a behaviour does, as operations on the results of earlier operations.
#[derive(Debug, Drop)]
pub struct Graph {
    /// The operations, numbered from 0; each names earlier ones only.
    pub ops: List<Op>,
    /// For each operation, whether it is a write of a `spawn` body.
    pub spawned: List<bool>,
    /// The entries of the extension's tables, in their order.
    pub tables: List<List<Bits>>,
}

/// How a behaviour runs (Longnail and SCAIE-V, modes of execution).
#[derive(Clone, Copy, Debug, PartialEq, Eq)]
pub enum Mode {
    /// In the stages of the core.
    InPipeline,
    /// Past the last stage, while the instruction waits there.
    Tight,
    /// Past the last stage, after the instruction has retired: a `spawn` body.
    Decoupled,
    /// With each instruction: an always-block.
    Always,
}
