ghost use Rattle.ix_typing.specs.Laws.{TypedLaw, ScopeLaw, HeadLaw, EmbedsLaw};

/// Laws of typing. It does nothing: its contract is what it is for.
pub fn typing_laws()
    ensures typed { TypedLaw }
    ensures scope { ScopeLaw }
    ensures heads { HeadLaw }
    ensures embeds { EmbedsLaw }
{}
