ghost use Rattle.std.specs.Prelude.{◌≡◌, ◌≢◌};
ghost use Rattle.ix_dump.specs.Dump.{dump_text};
ghost use Rattle.ix_dump.specs.Hand.{hand_text, other_byte, shown_again, three_rows, two_nets};
ghost use Rattle.ix_dump.specs.Laws.{DumpsGrow};

/// A dump grows row by row: the law by which a caller joins what `write_head` and `write_row`
/// wrote. It does nothing when it runs.
pub fn dumps_grow()
    ensures { DumpsGrow }
{}

/// The definition of a dump, tried on one that was written out by hand, and on two texts that
/// differ from it and are none. It does nothing when it runs.
pub fn hand_dump()
    ensures text { dump_text two_nets three_rows ≡ hand_text }
    ensures other_byte { dump_text two_nets three_rows ≢ other_byte }
    ensures shown_again { dump_text two_nets three_rows ≢ shown_again }
{}
