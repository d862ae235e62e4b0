ghost use Rattle.rv_rows.specs.Laws.{KindsLaw};

use crate::laws::row_facts;

/// All kinds together are the lawful row behind rows that go on. It does nothing: its contract is
/// what it is for.
pub fn kinds_are_lawful()
    ensures { KindsLaw }
{
    row_facts();
}
