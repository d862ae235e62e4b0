ghost use Rattle.rv_watch.specs.Printed.{PrintedLaw};

use ix_behaviour::behaviour_laws;
use ix_graph_laws::graph_laws;
use rv_shown::texts_shown;
use rv_sight::sight_laws;

/// What is printed of lawful rows that show the run, and of the state behind them, is the text of
/// a trace. It does nothing: its contract is what it is for.
pub fn printed_rows()
    ensures { PrintedLaw }
{
    behaviour_laws();
    graph_laws();
    texts_shown();
    sight_laws();
}
