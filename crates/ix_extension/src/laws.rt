ghost use Rattle.ix_extension.specs.Laws.{WordLaw, OneInstructionLaw};

/// Laws of extensions. It does nothing: its contract is what it is for.
pub fn extension_laws()
    ensures words { WordLaw }
    ensures one_instruction { OneInstructionLaw }
{}
