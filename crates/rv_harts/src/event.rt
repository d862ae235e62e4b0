use crate::row::Turn;
use rv_seq::Stop;

/// What a cell does in a row by which all younger cells of its hart are flushed.
#[derive(Clone, Copy, Debug, PartialEq, Eq)]
pub enum Event {
    /// It is turned, and fetched again from its address.
    Turned(Turn, u32),
    /// It stops its hart.
    Stopped(Stop),
    /// It goes on, and its successor's address is not the one that stands next, or is fetched next.
    Led(u32),
}

/// An event with the stage of its cell, 0 to 4.
#[derive(Clone, Copy, Debug, PartialEq, Eq)]
pub struct EventAt {
    pub stage: u8,
    pub event: Event,
}
