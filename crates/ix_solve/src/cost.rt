//! The cost of a schedule.

ghost use Rattle.std.specs.Prelude.{◌≡◌, ◌+◌, ◌*◌, ◌<◌, ◌≤◌, length, slice_index, sum_by, sum, ◌^◌, slice_index_or};
ghost use Rattle.ix_sheet.specs.Schedules.{IsValidProblem, IsSchedule, cost, kept_along};

use ix_residual::weight;
use ix_sheet::Problem;

fn total(times: &[u8]) -> u64
    requires { length times.now ≤ 65536 }
    ensures sum { result ≡ sum times.now }
    ensures low { result ≤ 255 * 65536 }
{
    let mut total = 0;
    for time in times {
        total += *time as u64;
    }
    total
}

// how long the result of an edge's start is kept for its end, by its weight
fn kept(p: &Problem, times: &[u8], index: usize) -> u64
    requires valid { IsValidProblem p.now }
    requires schedule { IsSchedule p.now times.now }
    requires within { index < length p.now.edges }
    ensures kept { result ≡ kept_along p.now (slice_index times.now) (slice_index_or p.now.edges index (0, 0)) }
    ensures low { result ≤ 128 * 255 }
{
    let (from, to) = p.edges.as_slice()[index];
    let node = p.ops.as_slice()[from as usize];
    let ready = times[from as usize] as u64 + node.latency as u64;
    weight(node) * (times[to as usize] as u64 - ready)
}

fn total_kept(p: &Problem, times: &[u8]) -> u64
    requires valid { IsValidProblem p.now }
    requires schedule { IsSchedule p.now times.now }
    ensures sum { result ≡ sum_by (kept_along p.now (slice_index times.now)) p.now.edges }
    ensures low { result ≤ 128 * 255 * 2 ^ 32 }
{
    let mut total = 0;
    for index in 0..p.edges.len() {
        total += kept(p, times, index);
    }
    total
}

/// The cost of a schedule: its times, and how long results are kept.
pub fn cost_of(p: &Problem, times: &[u8]) -> u64
    requires valid { IsValidProblem p.now }
    requires schedule { IsSchedule p.now times.now }
    ensures { result ≡ cost p.now (slice_index times.now) }
{
    total(times) + total_kept(p, times)
}
