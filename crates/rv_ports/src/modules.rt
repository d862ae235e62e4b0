use ix_graph::Mode;
use rv_core::Shape;

/// The module of a behaviour in a core of this shape.
#[derive(Clone, Copy)]
pub struct Module {
    pub shape: Shape,
    pub mode: Mode,
    /// Instructions are numbered from 0 in the order of the source, always-blocks behind them.
    pub number: u8,
    /// Its unit, where it is decoupled.
    pub unit: Option<u8>,
}
