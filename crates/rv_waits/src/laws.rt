ghost use Rattle.rv_waits.specs.Waits.{BoundLaw};

/// No access waits longer than the greatest wait. It does nothing: its contract is what it is for.
pub fn waits_are_bounded()
    ensures { BoundLaw }
{}
