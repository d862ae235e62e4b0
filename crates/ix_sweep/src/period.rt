//! Whether a behaviour has a schedule with a period.

ghost use Rattle.std.specs.Prelude.{◌≡◌, ◌≤◌, IfOk, true, false};
ghost use Rattle.ix_graph.specs.Graphs.{IsValidGraph};
ghost use Rattle.ix_sheet.specs.Sheets.{IsValidSheet};
ghost use Rattle.ix_sweep.specs.Periods.{at_period as specified_at_period, FitsAt, IsTested, IsLeastPeriod};

use crate::contradicted::contradicted;
use ix_bits::{List, Memory};
use ix_graph::{Graph, Mode};
use ix_problem::problem_of;
use ix_sheet::{Bound, Problem, Sheet, problem_law};
use std::alloc::Global;

/// The greatest period that a datasheet may have, in the unit of the period.
pub(crate) const MOST: u32 = 1_000_000;

/// The datasheet with this period, from 1 to 1,000,000 if it is to be a valid one, in place of its own.
pub fn at_period(sheet: &Sheet, period: u32) -> Sheet
    ensures is { result ≡ specified_at_period sheet.now period }
    ensures valid { IsValidSheet sheet.now → 1 ≤ period → period ≤ 1000000 → IsValidSheet result }
{
    Sheet {
        shape: sheet.shape,
        period,
        weighted: sheet.weighted,
        delay: sheet.delay,
        window: sheet.window,
    }
}

/// The behaviour's problem in a mode with a period and bounds of it that contradict each other, or None where it has a legal schedule.
pub(crate) fn tested(
    alloc: Global,
    graph: &Graph,
    sheet: &Sheet,
    mode: Mode,
    period: u32,
) -> Result<Option<(Problem, List<Bound>)>, Memory>
    requires graph { IsValidGraph graph.now }
    requires sheet { IsValidSheet sheet.now }
    requires some { 1 ≤ period }
    requires most { period ≤ 1000000 }
    ensures { IfOk result (IsTested graph.now sheet.now mode period) }
{
    problem_law();
    let sheet = at_period(sheet, period);
    let problem = problem_of(alloc, graph, &sheet, mode)?;
    match contradicted(alloc, &problem)? {
        Some(cycle) => Ok(Some((problem, cycle))),
        None => Ok(None),
    }
}

// Whether the behaviour has a legal schedule in a mode with a period.
fn fits(
    alloc: Global,
    graph: &Graph,
    sheet: &Sheet,
    mode: Mode,
    period: u32,
) -> Result<bool, Memory>
    requires graph { IsValidGraph graph.now }
    requires sheet { IsValidSheet sheet.now }
    requires some { 1 ≤ period }
    requires most { period ≤ 1000000 }
    ensures yes { IfOk result (λ fits. fits ≡ true → FitsAt graph.now sheet.now mode period) }
    ensures no { IfOk result (λ fits. fits ≡ false → FitsAt graph.now sheet.now mode period → ⊥) }
{
    match tested(alloc, graph, sheet, mode, period)? {
        Some(_) => Ok(false),
        None => Ok(true),
    }
}

/// The least period with which the behaviour has a legal schedule in a mode, where it has one with the greatest period. It is found by
/// halves: 20 periods at most are tried.
pub(crate) fn least_period(
    alloc: Global,
    graph: &Graph,
    sheet: &Sheet,
    mode: Mode,
) -> Result<u32, Memory>
    requires graph { IsValidGraph graph.now }
    requires sheet { IsValidSheet sheet.now }
    requires fits { FitsAt graph.now sheet.now mode 1000000 }
    ensures { IfOk result (IsLeastPeriod graph.now sheet.now mode) }
{
    let mut low = 1;
    let mut high = MOST;
    'halves: while low < high {
        let middle = low + (high - low) / 2;
        if fits(alloc, graph, sheet, mode, middle)? {
            high = middle;
        } else {
            low = middle + 1;
        }
    }
    Ok(low)
}
