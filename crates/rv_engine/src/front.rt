use crate::owing::Owing;
use ix_bits::Bits;
use rv_holds::Token;
use rv_seq::Arch;

/// The counts between rows: the next fetch address, the next serial, the accesses of the tokens that have left MEM, for how many rows
/// the token that stays in MEM has stood there, the rows so far, and whether the interrupt line was raised before and not taken since.
#[derive(Clone, Copy, Debug, PartialEq, Eq)]
pub struct Front {
    pub fetch: u32,
    pub next: u32,
    pub accesses: u32,
    pub stood: u32,
    pub rows: u32,
    pub waiting: bool,
}

/// What a pipeline keeps between rows.
#[derive(Drop)]
pub struct Kept {
    /// The tokens as they stand after the moves of the last row, stage 0 first.
    pub slots: [Option<Token>; 5],
    pub front: Front,
    /// The future file: the custom registers as a token that comes to EX reads them.
    pub future: [Bits; 16],
    pub arch: Arch,
    /// What is outstanding beside the stages.
    pub owing: Owing,
}
