ghost use Rattle.ix_bits.specs.Laws.{FitLaw, PatternLaw, RangeLaw, CommonLaw};

/// Laws of the definitions that contracts cite. It does nothing: its contract is what it is for.
pub fn number_laws()
    ensures fit { FitLaw }
    ensures patterns { PatternLaw }
    ensures range { RangeLaw }
    ensures common { CommonLaw }
{}
