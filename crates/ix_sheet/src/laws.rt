ghost use Rattle.ix_sheet.specs.Laws.{BoundsLaw, FlowLaw, CycleLaw, MinimumLaw, TightLaw, ChosenLaw, OneLaw};
ghost use Rattle.ix_sheet.specs.BehaviourLaws.{ProblemLaw};

/// Times are legal exactly where they meet each bound of the problem. It does nothing: its contract is what it is for.
pub fn bounds_law()
    ensures { BoundsLaw }
{}

/// A dual flow whose value is the cost of a legal schedule shows that no legal schedule costs less.
pub fn flow_law()
    ensures { FlowLaw }
{}

/// A contradictory cycle shows that there is no legal schedule.
pub fn cycle_law()
    ensures { CycleLaw }
{}

/// The pointwise minimum of two legal schedules of least cost is one.
pub fn minimum_law()
    ensures { MinimumLaw }
{}

/// Given a dual flow whose value is the least cost: each legal schedule of least cost meets the bounds that have an amount
/// with equality, and the least times that meet all bounds and those turned round are the chosen schedule, which is one.
pub fn chosen_law()
    ensures tight { TightLaw }
    ensures chosen { ChosenLaw }
    ensures one { OneLaw }
{}

/// The problem of a valid graph, in any mode and by any sheet, is valid.
pub fn problem_law()
    ensures { ProblemLaw }
{}
