ghost use Rattle.std.specs.Prelude.{◌≡◌, ℕ, ◌<◌, ◌≤◌, length, All, sum_by, nat_lt};
ghost use Rattle.ix_sheet.specs.Schedules.{IsValidProblem};
ghost use Rattle.ix_sheet.specs.Bounds.{IsBoundOf, arc_of};
ghost use Rattle.ix_cert.specs.Faults.{IsOpen, end_before};
ghost use Rattle.ix_cert.specs.Checks.{Tells};

use crate::report::ReportBlock;
use ix_sheet::{Bound, Problem, arc_of_bound};

/// The first bound of the cycle that does not start where the one before ends; the last one is before the first.
pub(crate) fn first_open(b: &ReportBlock) -> Option<usize>
    requires valid { IsValidProblem b.now.problem }
    requires named { All (IsBoundOf b.now.problem) b.now.cycle }
    ensures { Tells (length b.now.cycle) (IsOpen b.now) result }
{
    let cycle = b.cycle.as_slice();
    if cycle.is_empty() {
        return None;
    }
    let mut end = arc_of_bound(&b.problem, &cycle[cycle.len() - 1]).to;
    'bounds: for at in 0..cycle.len() {
        let arc = arc_of_bound(&b.problem, &cycle[at]);
        if arc.from != end {
            return Some(at);
        }
        end = arc.to;
    }
    None
}

/// Whether the numbers of the cycle sum to more than 0.
pub(crate) fn is_positive(b: &ReportBlock) -> bool
    requires valid { IsValidProblem b.now.problem }
    requires named { All (IsBoundOf b.now.problem) b.now.cycle }
    ensures { result ≡ nat_lt (sum_by (λ x. (arc_of b.now.problem x).down) b.now.cycle) (sum_by (λ x. (arc_of b.now.problem x).up) b.now.cycle) }
{
    let mut up = 0u128;
    let mut down = 0u128;
    'bounds: for bound in b.cycle.as_slice() {
        let arc = arc_of_bound(&b.problem, bound);
        up += u128::from(arc.up);
        down += u128::from(arc.down);
    }
    down < up
}
