ghost use Rattle.ix_types.specs.Laws.{BinaryLaw, UnaryLaw};

/// The number of an operation lies in its result's type. It does nothing: its contract is what it is for.
pub fn result_laws()
    ensures binary { BinaryLaw }
    ensures unary { UnaryLaw }
{}
