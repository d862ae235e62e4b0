//! Whether a problem has a legal schedule, by longest walks alone.

ghost use Rattle.std.specs.Prelude.{IfOk};
ghost use Rattle.ix_sheet.specs.Schedules.{IsValidProblem};
ghost use Rattle.ix_sweep.specs.Periods.{IsDecided};

use ix_bits::{List, Memory};
use ix_problem::constraints;
use ix_sheet::{Bound, Problem};
use ix_solve::{contradiction, cycle_of, network_of};
use std::alloc::Global;

/// Bounds of a valid problem that contradict each other, or None where it has a legal schedule.
pub(crate) fn contradicted(alloc: Global, p: &Problem) -> Result<Option<List<Bound>>, Memory>
    requires { IsValidProblem p.now }
    ensures { IfOk result (IsDecided p.now) }
{
    let bounds = constraints(alloc, p)?;
    let network = network_of(alloc, p, bounds.as_slice())?;
    match contradiction(alloc, &network)? {
        Some(places) => {
            let cycle = cycle_of(alloc, bounds.as_slice(), places.as_slice())?;
            Ok(Some(cycle))
        }
        None => Ok(None),
    }
}
