ghost use Rattle.ix_spawns.specs.Targets.{RegistersLaw};

use ix_typed::form_laws;

/// In a well-formed extension a `spawn` body writes registers alone. It does nothing: its contract is what it is for.
pub fn spawn_laws()
    ensures registers { RegistersLaw }
{
    form_laws();
}
