ghost use Rattle.ix_graph.specs.KindLaws.{NumberLaw, WordLaw, PlaceLaw};
ghost use Rattle.ix_graph.specs.Roles.{SameKindLaw};

/// Laws of the table of kinds. It does nothing: its contract is what it is for.
pub fn kind_laws()
    ensures numbers { NumberLaw }
    ensures words { WordLaw }
    ensures places { PlaceLaw }
    ensures same { SameKindLaw }
{}
