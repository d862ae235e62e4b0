ghost use Rattle.std.specs.Prelude.{◌≡◌, ℕ, ◌<◌, ◌≤◌, ◌^◌, List, Option, length, take, IfOk, OnErr};
ghost use Rattle.ix_io.specs.Faults.{Rose};
ghost use Rattle.ix_io.specs.Sink.{Appends};

use crate::Failed;

/// An output that is written in parts.
pub trait Sink {
    /// The bytes that were written so far, where they are told.
    ghost written: { Self → Option (List ℕ) };

    /// The count of faults so far.
    ghost faults: { Self → ℕ };

    /// Appends bytes from the front of the piece, which is not empty, and answers their count, which is at least 1.
    fn write_part(&mut self, piece: &[u8]) -> Result<usize, Failed>
        requires { 0 < length piece.now }
        ensures some { IfOk result (λ n. 0 < n) }
        ensures within { IfOk result (λ n. n ≤ length piece.now) }
        ensures appends { IfOk result (λ n. Appends (written self.old) (written self.new) (take n piece.now)) }

        // An answer `Failed` shows in the count, and nothing was appended.
        ensures nothing { OnErr result (written self.new ≡ written self.old) }
        ensures failed { OnErr result (Rose (faults self.old) (faults self.new)) }
        ensures never_fell { faults self.old ≤ faults self.new }
        ensures in_range { faults self.new < 2 ^ 64 };
}
