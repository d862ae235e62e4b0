ghost use Rattle.ix_typed.specs.Laws.{TextLaw, ExprLaw};

/// Laws of typed trees. It does nothing: its contract is what it is for.
pub fn form_laws()
    ensures texts { TextLaw }
    ensures expressions { ExprLaw }
{}
