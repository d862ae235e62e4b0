ghost use Rattle.std.specs.Prelude.{◌≡◌, ◌<◌, ◌≤◌, [], ◌∷◌, ◌++◌, length, OnOk, OnErr};
ghost use Rattle.rv_waits.specs.Lines.{most_lines, rows_end, next_row, is_raised as specified_is_raised};

use ix_bits::{List, Memory};
use std::alloc::Global;
use std::marker::Model;

/// The rows in which an interrupt line is raised, by their numbers, each above the one before and below 200,000: at most 4,096 of them.
/// Contracts see the list of the numbers.
#[derive(Debug, Drop)]
pub struct Lines {
    list: List<u32>,
}

impl Model for Lines {
    ghost use Rattle.std.specs.Prelude.{List, ℕ, ◌≤◌, length};
    ghost use Rattle.rv_waits.specs.Lines.{most_lines, Ascending};

    ghost Value = { List ℕ };

    ghost view = { λ lines. lines.list };

    ghost invariant = { λ lines. (length lines.list ≤ most_lines) × Ascending 0 lines.list };
}

impl Lines {
    /// The greatest count of numbers.
    pub const MOST: usize = 4_096;

    /// The numbers are below this one.
    pub const END: u32 = 200_000;

    /// A line that is never raised. It takes no memory.
    pub fn new(alloc: Global) -> Lines
        ensures { result ≡ [] }
    {
        Lines {
            list: List::new(alloc),
        }
    }

    /// Puts one more row behind the last one, where there is room. Without memory the lines stay as they were.
    pub fn push(&mut self, row: u32) -> Result<(), Memory>
        requires room { length self.old < most_lines }
        requires above { next_row self.old ≤ row }
        requires below { row < rows_end }
        ensures ok { OnOk result (self.new ≡ self.old ++ row ∷ []) }
        ensures err { OnErr result (self.new ≡ self.old) }
    {
        self.list.push(row)
    }

    /// The count of numbers, at most 4,096.
    pub fn len(&self) -> u32
        ensures value { result ≡ length self.now }
        ensures most { result ≤ most_lines }
    {
        self.list.len() as u32
    }

    /// The least row that may come behind the last one: 0 at first, at most 200,000.
    pub fn next(&self) -> u32
        ensures value { result ≡ next_row self.now }
        ensures most { result ≤ rows_end }
    {
        match self.list.as_slice().last() {
            None => 0,
            Some(row) => *row + 1,
        }
    }

    /// Whether the line is raised in the row of this number. Takes no memory.
    pub fn is_raised(&self, row: u32) -> bool
        ensures { result ≡ specified_is_raised self.now row }
    {
        self.list.as_slice().binary_search(&row).is_ok()
    }
}
