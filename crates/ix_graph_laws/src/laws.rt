ghost use Rattle.ix_graph_laws.specs.Laws.{ValidLaw, GraphEffectLaw, ValuesLaw};

use ix_behaviour::{access_laws, behaviour_laws};

/// Laws of the operation graphs of the behaviours of well-formed extensions: they are valid, do what the behaviours do by
/// their names, and have values under all inputs. It does nothing: its contract is what it is for.
pub fn graph_laws()
    ensures valid { ValidLaw }
    ensures effect { GraphEffectLaw }
    ensures values { ValuesLaw }
{
    access_laws();
    behaviour_laws();
}
