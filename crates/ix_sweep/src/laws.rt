ghost use Rattle.ix_sweep.specs.Periods.{LaterLaw, OwnLaw};

/// A behaviour that has a legal schedule with a period has one with each greater period, and the period of the datasheet itself
/// changes nothing. It does nothing: its contract is what it is for.
pub fn period_law()
    ensures later { LaterLaw }
    ensures own { OwnLaw }
{}
