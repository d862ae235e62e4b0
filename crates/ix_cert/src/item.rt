use ix_bits::Name;
use ix_graph::Mode;
use ix_sheet::{Bound, Node};

/// An operation as its line tells it.
#[derive(Drop)]
pub struct Operation {
    /// Whether its line tells its weight, which is 1 where it does not.
    pub weighted: bool,
    pub place: u32,
    /// The printed kind.
    pub kind: Name,
    pub node: Node,
    /// The time, where the line tells one.
    pub time: Option<u8>,
}

/// What a line of a report says.
#[derive(Drop)]
pub enum Item {
    /// The version, 1 or 2.
    Title(u8),
    Period(u32),
    Behaviour(Name, Option<Mode>),
    Op(Operation),
    Edge(u32, u32),
    Cost(u64),
    /// An amount, and the bound that has it.
    Flow(u64, Bound),
    Cycle(Bound),
    End,
}
