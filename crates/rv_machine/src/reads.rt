ghost use Rattle.rv_machine.specs.Lives.{ReadsLaw};

use ix_behaviour::behaviour_laws;
use ix_graph_laws::graph_laws;
use ix_typed::form_laws;
use rv_sight::sight_laws;
use rv_tried::trial_laws;

/// Of a token that is watched the inputs of its module carry the values of the run at its place, in the newest row from EX on and in each row as which it left a time. It does
/// nothing: its contract is what it is for.
pub fn reads_law()
    ensures { ReadsLaw }
{
    behaviour_laws();
    form_laws();
    graph_laws();
    sight_laws();
    trial_laws();
}
