ghost use Rattle.rv_rows.specs.Gone.{GoneLaw};

use crate::laws::row_facts;

/// Instructions retire in order, are never flushed, and keep their place in the run. It does
/// nothing: its contract is what it is for.
pub fn gone_facts()
    ensures { GoneLaw }
{
    row_facts();
}
