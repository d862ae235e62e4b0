ghost use Rattle.rv_owing.specs.Owing.{OwingLaw};

use rv_rows::{gone_facts, row_facts};

/// What is outstanding behind lawful rows that show the run, and that a unit writes nothing else.
/// It does nothing: its contract is what it is for.
pub fn owing_facts()
    ensures { OwingLaw }
{
    row_facts();
    gone_facts();
}
