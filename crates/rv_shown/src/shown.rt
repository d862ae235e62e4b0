use rv_seq::Stop;
use rv_trace::Hold;

/// An instruction in a stage, as a line shows it.
#[derive(Clone, Copy, Debug, PartialEq, Eq)]
pub struct ShownCell {
    pub serial: u32,
    pub at: u32,
    pub hold: Option<Hold>,
}

/// A part of a text: from this byte to before that one, both counted from 0.
#[derive(Clone, Copy, Debug, PartialEq, Eq)]
pub struct Span {
    pub start: usize,
    pub end: usize,
}

/// What the lines of a row show.
#[derive(Clone, Copy, Debug, PartialEq, Eq)]
pub struct ShownRow {
    /// The stages' cells, stage 0 first; the stages past the core's are empty.
    pub cells: [Option<ShownCell>; 5],
    /// The serial that retires.
    pub retired: Option<u32>,
    /// The serial whose outstanding writes are made.
    pub written: Option<u32>,
    /// The serials that are flushed, ascending; behind them there are none.
    pub flushed: [Option<u32>; 5],
    /// The address that the next fetch takes instead of its own.
    pub redirect: Option<u32>,
    pub stop: Option<Stop>,
    /// The line of what retires; empty where nothing does.
    pub retired_line: Span,
    /// The line of the outstanding writes that are made; empty where none are.
    pub written_line: Span,
}
