/// What is looked for among older instructions.
#[derive(Clone, Copy, PartialEq, Eq)]
pub enum Want {
    /// One that writes this x register, its value not there yet.
    Operand(u8),
    /// One whose `spawn` body writes the register of this number.
    Board(u8),
    /// One that writes this custom register late.
    Custom(u8),
    /// One that writes the pc late.
    Late,
    /// One that is not retired, or not written, by the end of the row.
    Drain,
    /// One that stores.
    Store,
}
