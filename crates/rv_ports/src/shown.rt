use ix_bits::Bits;

/// What the cell of a stage shows the modules in a row.
#[derive(Clone, Copy)]
pub struct Seat {
    /// The number of its instruction in the extension; `None` for any other word.
    pub behaviour: Option<u8>,
    /// Its stage; in the last stage with the count of earlier rows in which it was held by Tail, so up to 68.
    pub time: u16,
    pub at: u32,
    pub word: u32,
    /// The x register that bits 19 to 15 of the word name, before the row's writes.
    pub first: u32,
    /// The x register that bits 24 to 20 of the word name, before the row's writes.
    pub second: u32,
    /// Whether it is held where its operands, its registers or its memory access are still to come, so that its inputs are 0.
    pub silent: bool,
    /// Whether it is held by Tail.
    pub tails: bool,
    /// Whether it leaves its stage; a cell that stops the run does not.
    pub moves: bool,
}

/// What a row shows the modules.
#[derive(Clone, Copy)]
pub struct Shown {
    /// What the cells show, stage 0 first; `None` where a stage is empty, or past the core's last one.
    pub seats: [Option<Seat>; 5],
    /// The future file before the row: the custom registers as they are read at EX.
    pub custom: [Bits; 16],
    /// What the memory holds, before the row's writes, where the cell of MEM loads; 0 where it does not.
    pub datum: u32,
    /// Which units are frozen, by their numbers; `false` for units that there are not.
    pub frozen: [bool; 64],
}
