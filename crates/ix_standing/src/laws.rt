ghost use Rattle.ix_standing.specs.Served.{BuiltLaw, ServedLaw};

use ix_graph_laws::graph_laws;
use ix_plan::Design;

/// What is built for an extension, and a design that stands for it, shows the values of each behaviour for all its inputs. It does nothing: its
/// contract is what it is for.
pub fn served()
    ensures built { BuiltLaw }
    ensures design { ServedLaw }
{
    graph_laws();
}
