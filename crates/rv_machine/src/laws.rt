ghost use Rattle.rv_machine.specs.Promises.{RowsLaw, StateLaw, ShownLaw, TextLaw};

use rv_sight::sight_laws;
use rv_tried::trial_laws;

/// The rows of a machine over an image of words, with a design that stands, are lawful, what they retire is a prefix of the run one instruction at a time, with its states,
/// outstanding writes applied, and its stop, and they go on; the state of the machine is that which they tell, and it lists what is outstanding; what each shows the modules is what the machine has before its writes; and the text of a run is that of
/// such rows and of that state. It does nothing: its contract is what it is for.
pub fn rows_laws()
    ensures rows { RowsLaw }
    ensures state { StateLaw }
    ensures shown { ShownLaw }
    ensures text { TextLaw }
{
    sight_laws();
    trial_laws();
}
