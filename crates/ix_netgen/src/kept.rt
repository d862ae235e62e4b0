use ix_cells::{Operand, Wire};

/// What was made for an operation.
#[derive(Debug, Drop)]
pub(crate) struct Kept {
    /// The time at which the result is there.
    pub from: u8,
    /// The wires that show the result, one for each time from then on; none for a write.
    pub wires: Vec<Wire>,
    /// The arguments, at the operation's time.
    pub operands: Vec<Operand>,
}
