use ix_bits::Bits;
use ix_eval::Access;

/// Why a run stops (RV32I; the profile of traps is this project's choice).
#[derive(Clone, Copy, Debug, PartialEq, Eq)]
pub enum Stop {
    Ecall,
    Ebreak,
    /// A word that is no instruction.
    Illegal,
    /// A pc that is not divisible by 4 or lies outside the image.
    Fetch,
    /// A load or store at an address that its size does not divide.
    Misaligned,
    /// A load or store outside the memory.
    DataRange,
    /// A base jump to an address that is not divisible by 4.
    Target,
}

/// What a step does to one target: nothing, a write of a value, or a write that comes later, which there is in a pipeline alone.
#[derive(Clone, Copy, Debug, PartialEq, Eq)]
pub enum Slot<V> {
    Absent,
    Now(V),
    Later,
}

/// The writes of one retired instruction.
#[derive(Clone, Copy, Debug, PartialEq, Eq)]
pub struct Commit {
    /// The instruction's address.
    pub at: u32,
    pub word: u32,
    /// The x register that is written, 1 to 31; 0 where none is.
    pub rd_index: u8,
    pub rd: Slot<u32>,
    pub custom: [Slot<Bits>; 16],
    pub store: Option<(Access, u32)>,
    /// The address of the next instruction.
    pub next: u32,
}
