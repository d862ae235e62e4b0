ghost use Rattle.ix_eval.specs.Evaluated.{NamedLoadLaw};

use ix_behaviour::behaviour_laws;

/// What the effect of a behaviour loads is the first that the behaviour reads by its names. It does nothing: its contract is
/// what it is for.
pub fn load_law()
    ensures { NamedLoadLaw }
{
    behaviour_laws();
}
