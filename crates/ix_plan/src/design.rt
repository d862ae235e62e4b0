use ix_bits::List;
use ix_graph::{Graph, Mode};
use ix_net::Net;
use ix_sheet::Sheet;
use ix_tree::Extension;

/// How a behaviour runs: its mode, its operations and the time of each, from RD to 64.
#[derive(Drop)]
pub struct Plan {
    pub mode: Mode,
    pub graph: Graph,
    pub times: List<u8>,
    /// The greatest time of an operation; RD where there is none.
    pub last: u8,
}

/// An extension on a core: one plan and one net for each instruction, then for each block, in source order.
#[derive(Drop)]
pub struct Design {
    pub extension: Extension,
    pub sheet: Sheet,
    pub plans: List<Plan>,
    pub nets: List<Net>,
}

/// A register that an instruction writes: one of the 32 registers of the base, or a custom one by its number from 0 to 15.
#[derive(Clone, Copy, Debug, PartialEq, Eq)]
pub enum Target {
    X(u8),
    Custom(u8),
}
