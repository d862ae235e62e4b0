ghost use Rattle.ix_sweeps.specs.Laws.{OwnLaw, FaultlessLaw, RefusalLaw};

/// The period of the datasheet itself changes no sweep; the check of a report finds no fault in the reports of one; and an extension that has
/// a sweep is not refused. It does nothing: its contract is what it is for.
pub fn sweep_laws()
    ensures own { OwnLaw }
    ensures faultless { FaultlessLaw }
    ensures refusal { RefusalLaw }
{}
