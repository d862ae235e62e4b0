ghost use Rattle.rv_machine.specs.Lives.{PromiseLaw};

use crate::reads::reads_law;
use ix_behaviour::behaviour_laws;
use ix_depends::depend_laws;
use ix_standing::served;
use rv_sight::sight_laws;
use rv_tried::trial_laws;

/// Nets that are driven by the rows of a machine show, wherever a token stands at the time of an output and speaks, the value of the run at its place. It does nothing: its
/// contract is what it is for.
pub fn promise_law()
    ensures { PromiseLaw }
{
    behaviour_laws();
    depend_laws();
    reads_law();
    served();
    sight_laws();
    trial_laws();
}
