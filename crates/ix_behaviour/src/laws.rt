ghost use Rattle.ix_behaviour.specs.Laws.{ResolvedLaw, TypedBehaviourLaw, BehaviourEffectLaw, BehaviourReadsLaw, OneAccessLaw, FewLaw, ConstantsLaw};
ghost use Rattle.ix_behaviour.specs.Accesses.{AccessesLaw, StoredTypeLaw};
ghost use Rattle.ix_behaviour.specs.Tables.{TablesLaw, WidthsLaw};

use ix_typed::form_laws;

/// Laws of the behaviours of well-formed extensions. It does nothing: its contract is what it is for.
pub fn behaviour_laws()
    ensures resolved { ResolvedLaw }
    ensures typed { TypedBehaviourLaw }
    ensures effect { BehaviourEffectLaw }
    ensures reads { BehaviourReadsLaw }
    ensures one_access { OneAccessLaw }
    ensures few { FewLaw }
{
    form_laws();
}

/// Laws of the types of what the behaviours of well-formed extensions read from memory and store: unsigned, of 8, 16 or
/// 32 bits; and of the tables that they read. It does nothing: its contract is what it is for.
pub fn access_laws()
    ensures accesses { AccessesLaw }
    ensures stored { StoredTypeLaw }
    ensures tables { TablesLaw }
    ensures widths { WidthsLaw }
{
    form_laws();
}

/// The value that an expression has in a loop's head is its number. It does nothing: its contract is what it is for.
pub fn constants_law()
    ensures { ConstantsLaw }
{}
