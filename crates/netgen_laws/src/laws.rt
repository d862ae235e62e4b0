ghost use Rattle.netgen_laws.specs.Fitting.{TimesFit};

/// A legal schedule of a behaviour's problem, in any mode, gives times that the behaviour's netlist may have. It does nothing: its
/// contract is what it is for.
pub fn times_fit()
    ensures { TimesFit }
{}
