ghost use Rattle.rv_nets.specs.NetsLaw.{NetsLaw, AllRowsLaw};

/// The states that modules come to are those of runs of their nets, driven as the rows show, in the newest row and in each. It does nothing: its contract is what it is
/// for.
pub fn nets_law()
    ensures newest { NetsLaw }
    ensures each { AllRowsLaw }
{}
