use rv_asks::Asks;
use rv_seq::Stop;

/// An instruction whose writes are outstanding before a row.
#[derive(Clone, Copy, Debug, PartialEq, Eq)]
pub struct Owed {
    pub serial: u32,
    pub asks: Asks,
}

/// What is known of a row beside the row itself. What is said of a stage's cell is anything where
/// no cell stands there.
#[derive(Clone, Copy, Debug, PartialEq, Eq)]
pub struct Known {
    /// What the instruction of each stage's cell asks for, stage 0 first.
    pub asks: [Option<Asks>; 5],
    /// The stop that the cell of EX is due to make.
    pub stop: Option<Stop>,
    /// The run's address behind the cell of EX, and behind that of the last stage.
    pub behind_execute: u32,
    pub behind_last: u32,
    /// Does the cell of MEM access the memory, and for how many rows does this access wait?
    pub accesses: bool,
    pub wait: u8,
    /// For how many rows before this one it has stood in MEM.
    pub stood: u32,
    /// For how many rows before this one the cell of the last stage was held by Tail.
    pub tailed: u32,
    /// Is its unit frozen, as the row says which unit is written?
    pub frozen: bool,
    /// Has the instruction that the row says is written an x register as `spawn` target?
    pub port: bool,
    /// The serial that a unit has to write in the row.
    pub granted: Option<u32>,
    /// The address and the serial of what is fetched where stage 0 is free.
    pub fetch: u32,
    pub next: u32,
    /// The address that is fetched behind the row where the row names none.
    pub plain: u32,
    /// Is nothing outstanding behind the row?
    pub settled: bool,
}
