use ix_bits::Bits;
use ix_plan::Target;
use rv_seq::{Commit, Slot, Stop};

/// Why a cell does not go on: it is flushed, and fetched again. The serials name older cells of its
/// hart.
#[derive(Clone, Copy, Debug, PartialEq, Eq)]
pub enum Turn {
    /// An operand register has an older writer that is not retired.
    Operand(u8, u32),
    /// A register has an older outstanding write.
    Board(Target, u32),
    /// A custom register has an older late writer.
    Custom(u8, u32),
    /// An older cell writes the pc late.
    Late(u32),
    /// An older instruction of the same unit is not written.
    Unit(u8, u32),
    /// A cell that is due to stop has an older one that is not done.
    Drain(u32),
}

/// An instruction of a hart in a stage, in one row.
#[derive(Clone, Copy, Debug, PartialEq, Eq)]
pub struct BarrelCell {
    /// 0 for the first hart, 1 for the second.
    pub hart: u8,
    /// The count of its hart's fetches before its own.
    pub serial: u32,
    pub at: u32,
    pub word: u32,
    /// Why it is fetched again, if it is.
    pub turned: Option<Turn>,
}

/// What happens to a hart in one clock cycle.
#[derive(Clone, Copy, Debug, PartialEq, Eq)]
pub struct HartPart {
    /// The serial that retires, and its writes.
    pub retired: Option<(u32, Commit)>,
    /// The serial whose outstanding writes are made, its x register, and the values.
    pub written: Option<(u32, u8, Slot<u32>, [Slot<Bits>; 16])>,
    /// The serials that are flushed, the oldest first; what is turned is not among them.
    pub flushed: [Option<u32>; 5],
    /// The address that the next fetch takes in place of its own; that of what is turned is not
    /// named.
    pub redirect: Option<u32>,
    pub stop: Option<Stop>,
}

/// What happens in one clock cycle of a barrel.
#[derive(Clone, Copy, Debug, PartialEq, Eq)]
pub struct BarrelRow {
    /// The stages' cells, stage 0 first; the stages past the core's are empty.
    pub cells: [Option<BarrelCell>; 5],
    /// What happens to the first hart, and to the second.
    pub parts: [HartPart; 2],
}
