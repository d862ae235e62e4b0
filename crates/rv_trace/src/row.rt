use ix_bits::Bits;
use ix_plan::Target;
use rv_seq::{Commit, Slot, Stop};

/// Why a cell stays in its stage for a row; the serials name older cells.
#[derive(Clone, Copy, Debug, PartialEq, Eq)]
pub enum Hold {
    /// An operand register has an older writer that is not retired.
    Operand(u8, u32),
    /// A register has an older outstanding write.
    Board(Target, u32),
    /// A custom register has an older late writer.
    Custom(u8, u32),
    /// An older cell writes the pc late.
    Late(u32),
    /// An interrupt is to be taken before the cell goes on.
    Trap,
    /// A cell that is due to stop waits for an older cell.
    Drain(u32),
    /// The memory makes the access wait for so many rows.
    Wait(u8),
    /// A load waits for an older store.
    StoreAhead(u32),
    /// The module's last times are still to come.
    Tail(u8),
    /// The unit is frozen.
    UnitFull(u8),
    /// The port of the register file is taken by an outstanding write.
    Port(u32),
    /// The next stage is taken.
    Behind,
}

/// An instruction in a stage, in one row.
#[derive(Clone, Copy, Debug, PartialEq, Eq)]
pub struct Cell {
    /// The count of fetches before its own.
    pub serial: u32,
    pub at: u32,
    pub word: u32,
    pub hold: Option<Hold>,
}

/// What happens in one clock cycle.
#[derive(Clone, Copy, Debug, PartialEq, Eq)]
pub struct Row {
    /// The stages' cells, stage 0 first; the stages past the core's are empty.
    pub cells: [Option<Cell>; 5],
    /// The serial that retires, and its writes.
    pub retired: Option<(u32, Commit)>,
    /// The serial whose outstanding writes are made, its x register, and the values.
    pub written: Option<(u32, u8, Slot<u32>, [Slot<Bits>; 16])>,
    /// The serials that are flushed, the oldest first.
    pub flushed: [Option<u32>; 5],
    /// The address that the next fetch takes instead of its own.
    pub redirect: Option<u32>,
    /// The address to which the handler returns, where the row takes an interrupt.
    pub taken: Option<u32>,
    pub stop: Option<Stop>,
}
