ghost use Rattle.ix_net.specs.Laws.{ValidNetsHaveOneValuation};

/// A valid net has exactly one valuation for given inputs and banks: a law of the definitions, which does nothing when it runs.
pub fn has_one_valuation()
    ensures { ValidNetsHaveOneValuation }
{}
