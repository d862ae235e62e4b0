use rv_asks::Asks;
use rv_past::Step;
use rv_tried::Spawned;

/// An instruction of a hart in a stage.
#[derive(Clone, Copy, Debug, PartialEq, Eq)]
pub struct InFlight {
    /// The count of its hart's fetches before its own.
    pub serial: u32,
    pub at: u32,
    pub word: u32,
    /// What is asked of its instruction.
    pub asks: Asks,
    /// The step of the hart's run at its place, from EX on.
    pub step: Option<Step>,
}

/// What a retired instruction with a unit still writes.
#[derive(Clone, Copy, Debug, PartialEq, Eq)]
pub struct Owed {
    pub serial: u32,
    /// What is asked of the instruction; the targets of its `spawn` body are among that.
    pub asks: Asks,
    pub writes: Spawned,
}

/// What a hart fetches next, and whether it has stopped.
#[derive(Clone, Copy, Debug, PartialEq, Eq)]
pub struct Front {
    pub fetch: u32,
    /// The serial of the next fetch.
    pub next: u32,
    pub stopped: bool,
}
