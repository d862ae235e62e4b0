ghost use Rattle.rv_machine.specs.Lives.{LivesLaw};

use ix_behaviour::behaviour_laws;
use ix_depends::depend_laws;
use rv_sight::sight_laws;
use rv_tried::trial_laws;

/// Each token of which outputs are promised has had a life in its module, up to the newest row. It does nothing: its contract is what it is for.
pub fn lives_law()
    ensures { LivesLaw }
{
    behaviour_laws();
    depend_laws();
    sight_laws();
    trial_laws();
}
