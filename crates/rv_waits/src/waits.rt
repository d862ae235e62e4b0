ghost use Rattle.std.specs.Prelude.{◌≡◌, ◌<◌, ◌≤◌, [], ◌∷◌, ◌++◌, length, OnOk, OnErr};
ghost use Rattle.rv_waits.specs.Waits.{most_waits, wait_at};

use ix_bits::{List, Memory};
use std::alloc::Global;
use std::marker::Model;

/// For how many rows the memory waits in each access, 0 to 255, by the number of the access from 0: at most 65,536 of them. Accesses
/// past the last one do not wait. Contracts see the list of the numbers.
#[derive(Debug, Drop)]
pub struct Waits {
    list: List<u8>,
}

impl Model for Waits {
    ghost use Rattle.std.specs.Prelude.{List, ℕ, ◌≤◌, length};
    ghost use Rattle.rv_waits.specs.Waits.{most_waits};

    ghost Value = { List ℕ };

    ghost view = { λ waits. waits.list };

    ghost invariant = { λ waits. length waits.list ≤ most_waits };
}

impl Waits {
    /// The greatest count of numbers.
    pub const MOST: usize = 65_536;

    /// A memory that never waits. It takes no memory.
    pub fn new(alloc: Global) -> Waits
        ensures { result ≡ [] }
    {
        Waits {
            list: List::new(alloc),
        }
    }

    /// Puts the wait of one more access behind the last one, where there is room. Without memory the waits stay as they were.
    pub fn push(&mut self, rows: u8) -> Result<(), Memory>
        requires { length self.old < most_waits }
        ensures ok { OnOk result (self.new ≡ self.old ++ rows ∷ []) }
        ensures err { OnErr result (self.new ≡ self.old) }
    {
        self.list.push(rows)
    }

    /// The count of numbers, at most 65,536.
    pub fn len(&self) -> u32
        ensures value { result ≡ length self.now }
        ensures most { result ≤ most_waits }
    {
        self.list.len() as u32
    }

    /// For how many rows the access of this number waits. Takes no memory.
    pub fn wait(&self, access: u32) -> u8
        ensures { result ≡ wait_at self.now access }
    {
        match self.list.as_slice().get(access as usize) {
            Some(rows) => *rows,
            None => 0,
        }
    }
}
