ghost use Rattle.std.specs.Prelude.{◌≡◌, ◌≢◌, ◌<◌, ℕ, true, Some, None, length, slice_index_or, is_some};
ghost use Rattle.ix_plan.specs.declared.design.Target.{Target};
ghost use Rattle.rv_unit.specs.Reservations.{IsTarget, target_number, holder_of, reserved, freed};

use ix_plan::Target;
use std::marker::Model;

/// Which registers have an outstanding write, and of which serial. Contracts see the list of the serials: first those of the
/// 32 registers of the base, then those of the 16 custom ones.
#[derive(Drop)]
pub struct Board {
    holders: [Option<u32>; 48],
}

impl Model for Board {
    ghost use Rattle.std.specs.Prelude.{◌≡◌, ℕ, List, Option, length};

    ghost Value = { List (Option ℕ) };

    ghost view = { λ board. board.holders };

    ghost invariant = { λ board. length board.holders ≡ 48 };
}

impl Board {
    /// All registers are free.
    pub fn new() -> Board
        ensures free { (n : ℕ) → slice_index_or result n None ≡ None }
        ensures whole { length result ≡ 48 }
    {
        Board {
            holders: [None; 48],
        }
    }

    /// Reserves a free register for a serial. Takes no memory.
    pub fn reserve(&mut self, target: Target, serial: u32)
        requires target { IsTarget target }
        requires free { holder_of self.old target ≡ None }
        ensures board { self.new ≡ reserved self.old target serial }
        ensures held { holder_of self.new target ≡ Some serial }
        ensures others { (other : Target) → IsTarget other → other ≢ target → holder_of self.new other ≡ holder_of self.old other }
    {
        self.holders[place(target)] = Some(serial);
    }

    /// Frees a register that is reserved. Takes no memory.
    pub fn free(&mut self, target: Target)
        requires target { IsTarget target }
        requires reserved { is_some (holder_of self.old target) ≡ true }
        ensures board { self.new ≡ freed self.old target }
        ensures free { holder_of self.new target ≡ None }
        ensures others { (other : Target) → IsTarget other → other ≢ target → holder_of self.new other ≡ holder_of self.old other }
    {
        self.holders[place(target)] = None;
    }

    /// The serial that has reserved a register; none where it is free.
    pub fn holder(&self, target: Target) -> Option<u32>
        requires { IsTarget target }
        ensures { result ≡ holder_of self.now target }
    {
        self.holders[place(target)]
    }
}

/// The place of a register on the scoreboard.
fn place(target: Target) -> usize
    requires { IsTarget target }
    ensures place { result ≡ target_number target }
    ensures below { result < 48 }
{
    match target {
        Target::X(r) => usize::from(r),
        Target::Custom(c) => 32 + usize::from(c),
    }
}
