ghost use Rattle.ix_plan.specs.WorkedUnits.{AreUnitRows};

/// Two units whose serials come to their last times in one row: the lower one is written, and the other one a row later. It
/// does nothing: its contract is what it is for.
pub fn worked_units()
    ensures { AreUnitRows }
{}
