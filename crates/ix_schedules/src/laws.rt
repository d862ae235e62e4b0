ghost use Rattle.ix_schedules.specs.Laws.{NameLaw, ReportLaw, RefusalLaw};

/// The behaviours of the extension of a text have names of the language. It does nothing: its contract is what it is for.
pub fn name_law()
    ensures { NameLaw }
{}

/// An extension has no report on the core of a datasheet where a behaviour is refused, and none is refused for two causes. It does nothing: its
/// contract is what it is for.
pub fn answer_laws()
    ensures report { ReportLaw }
    ensures refusal { RefusalLaw }
{}
