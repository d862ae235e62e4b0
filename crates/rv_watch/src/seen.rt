/// What is kept of a serial that was fetched.
#[derive(Clone, Copy, Debug, PartialEq, Eq)]
pub struct Seen {
    pub flushed: bool,
    /// Does its instruction's `spawn` body write an x register?
    pub spawns: bool,
}
