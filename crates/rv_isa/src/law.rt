ghost use Rattle.std.specs.Prelude.{ℕ, ◌≡◌, ◌<◌, ◌^◌, IsTrue, Some};
ghost use Rattle.ix_bits.specs.BaseTable.{are_apart};
ghost use Rattle.rv_isa.specs.Table.{Matches, pattern_of};
ghost use Rattle.rv_isa.specs.RowNames.{RowsAreNumbered};
ghost use Rattle.rv_isa.specs.Fields.{IsInRange};
ghost use Rattle.rv_isa.specs.Decoded.{decoded};
ghost use Rattle.rv_isa.specs.Encoded.{encoded};
ghost use Rattle.rv_isa.specs.declared.base.Base.{Base};

/// No word matches two rows of the base table.
pub fn rows_are_apart()
    ensures patterns { (row other : ℕ) → row < other → other < 40 → IsTrue (are_apart (pattern_of row) (pattern_of other)) }
    ensures one_row { (word row other : ℕ) → row < 40 → other < 40 → Matches word row → Matches word other → row ≡ other }
{}

/// Decoding and encoding undo each other: each instruction whose fields are in range is what its word decodes to,
/// and each word that decodes is the word of its instruction, since the fields keep every bit that the row does not fix.
pub fn decoding_undoes_encoding()
    ensures instruction { (b : Base) → IsInRange b → decoded (encoded b) ≡ Some b }
    ensures in_range { (word : ℕ) (b : Base) → decoded word ≡ Some b → IsInRange b }
    ensures word { (word : ℕ) (b : Base) → word < 2 ^ 32 → decoded word ≡ Some b → encoded b ≡ word }
{}

/// Each named row stands at its own place in the base table.
pub fn rows_are_numbered()
    ensures { RowsAreNumbered }
{}
