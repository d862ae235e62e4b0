ghost use Rattle.ix_depends.specs.Laws.{BeforeMemoryLaw, BlindLaw, DependsLaw, SingleLaw, TimesLaw, UnwrittenLaw};

use ix_behaviour::behaviour_laws;
use ix_graph_laws::graph_laws;
use ix_spawns::spawn_laws;
use ix_typed::form_laws;

/// Laws on what the effects of behaviours depend on: what their operations read; before MEM not on what is loaded; and always-blocks on no operand
/// and no memory. At most one operation writes a target. It does nothing: its contract is what it is for.
pub fn depend_laws()
    ensures depends { DependsLaw }
    ensures before_memory { BeforeMemoryLaw }
    ensures times { TimesLaw }
    ensures single { SingleLaw }
    ensures blind { BlindLaw }
    ensures unwritten { UnwrittenLaw }
{
    form_laws();
    behaviour_laws();
    graph_laws();
    spawn_laws();
}
