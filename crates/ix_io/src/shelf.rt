ghost use Rattle.std.specs.Prelude.{◌≡◌, ℕ, ◌<◌, ◌≤◌, List, Option, length, IfOk, OnErr};
ghost use Rattle.ix_io.specs.Limits.{most_bytes};
ghost use Rattle.ix_io.specs.Faults.{AllInRange, NoneFell, Rose};
ghost use Rattle.ix_io.specs.Shelf.{NamedFiles, Places, told_file};

/// A part could not be read or written, and the fault was counted.
#[derive(Debug, Drop, PartialEq, Eq)]
pub struct Failed;

/// NamedFiles that are read in parts, by name.
pub trait Shelf {
    /// The names and bytes of the files, where they are told.
    ghost files: { Self → Option NamedFiles };

    /// For each name the count of faults so far.
    ghost faults: { Self → List ℕ → ℕ };

    /// Reads bytes of the file from the byte `from` on, which is at most 1,048,576, into the front of the slice, which
    /// is not empty, and answers their count. The count 0 is the end of the file. The rest of the slice may change.
    fn read_part(&mut self, name: &str, from: u64, into: &mut [u8]) -> Result<usize, Failed>
        requires near { from ≤ most_bytes }
        requires room { 0 < length into.old }
        ensures kept { files self.new ≡ files self.old }
        ensures placed { IfOk result (λ n. Places (told_file (files self.old) name.now) from n into.new) }

        // An answer `Failed` shows in the count of that name.
        ensures failed { OnErr result (Rose (faults self.old name.now) (faults self.new name.now)) }
        ensures none_fell { NoneFell (faults self.old) (faults self.new) }
        ensures in_range { AllInRange (faults self.new) };
}
