ghost use Rattle.std.specs.Prelude.{ℕ, List, [], Option};
ghost use Rattle.ix_plan.specs.declared.design.Design.{Design};
ghost use Rattle.rv_lawful.specs.Headline.{Headline};

/// No rows promise all that the headline says: nothing has happened yet, on any design. It does nothing: its contract is what it is for.
pub fn no_rows()
    ensures { (d : Design) (image waits : List ℕ) (lines : Option (List ℕ)) → Headline d image waits lines [] }
{}
