ghost use Rattle.ix_neteval.specs.Simulated.{SimulatorsRun};

/// The values that a simulator settles to, cycle by cycle from its first state, are a run of its net. It does nothing: its
/// contract is what it is for.
pub fn simulators_run()
    ensures { SimulatorsRun }
{}
