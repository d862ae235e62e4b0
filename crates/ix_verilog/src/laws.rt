ghost use Rattle.ix_verilog.specs.Laws.{OneSpelling, OneDenotation, OneLeaving, DenotingStays};

/// Laws of the subset. It does nothing: its contract is what it is for.
pub fn subset_laws()
    ensures spelling { OneSpelling }
    ensures denotation { OneDenotation }
    ensures leaving { OneLeaving }
    ensures staying { DenotingStays }
{}
