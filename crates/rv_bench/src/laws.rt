ghost use Rattle.rv_bench.specs.Words.{WordsLaw};

/// The words of a image that is drawn for an extension have 32 bits. It does nothing: its contract is what it is for.
pub fn drawn_laws()
    ensures words { WordsLaw }
{}
