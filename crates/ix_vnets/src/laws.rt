ghost use Rattle.ix_vnets.specs.Laws.{ModulesAreFinished, MadeIsNet, NetIsMade, OneIsMade, MisfitIsFirst, MadeFits, DrivesAreNumbered};

/// Laws of modules and their nets. It does nothing: its contract is what it is for.
pub fn nets_laws()
    ensures finished { ModulesAreFinished }
    ensures net { MadeIsNet }
    ensures made { NetIsMade }
    ensures once { OneIsMade }
    ensures misfit { MisfitIsFirst }
    ensures fits { MadeFits }
    ensures numbered { DrivesAreNumbered }
{}
