ghost use Rattle.std.specs.Prelude.{◌≡◌, ◌≢◌, ℕ, ◌<◌, ◌≤◌, ◌+◌, ◌*◌, ◌++◌, ◌==◌, length, map, All, IfOk, sum_by, slice_index};
ghost use Rattle.ix_sheet.specs.Schedules.{IsValidProblem, IsAfter, cost, kept_along, sum_below, node_at, weight_of};
ghost use Rattle.ix_sheet.specs.Bounds.{IsBoundOf, arc_of};
ghost use Rattle.ix_cert.specs.Layout.{IsNodeInForm};
ghost use Rattle.ix_cert.specs.Faults.{IsUnbalanced, IsOpen, times_of};
ghost use Rattle.ix_cert.specs.Checks.{Tells, AreAmounts, parts_in, parts_out, has_value, ups_of, downs_of, up_of, down_of};

use crate::report::ReportBlock;
use ix_bits::Memory;
use ix_sheet::{Bound, Problem, arc_of_bound};
use std::alloc::Global;

// The sum of the times.
fn sum_of_times(times: &[u8]) -> u128
    ensures is { result ≡ sum_below (slice_index times.now) (length times.now) }
    ensures small { result < 20282409603651670423947251286016 }
{
    let mut sum = 0;
    'times: for at in 0..times.len() {
        sum += u128::from(times[at]);
    }
    sum
}

// The weight of the result that an edge carries.
fn weight_along(p: &Problem, edge: (u32, u32)) -> u8
    requires { edge.0 < length p.now.ops }
    ensures { result ≡ weight_of (node_at p.now edge.0) }
{
    p.ops.as_slice()[edge.0 as usize].weight
}

// For how many cycles the result of an edge's start is kept for its end, by its weight.
fn kept(b: &ReportBlock, edge: (u32, u32)) -> u128
    requires from { edge.0 < length b.now.problem.ops }
    requires to { edge.1 < length b.now.problem.ops }
    requires times { length b.now.times ≡ length b.now.problem.ops }
    requires after { IsAfter b.now.problem (times_of b.now) edge }
    ensures is { result ≡ kept_along b.now.problem (times_of b.now) edge }
    ensures small { result ≤ 65025 }
{
    let times = b.times.as_slice();
    let latency = b.problem.ops.as_slice()[edge.0 as usize].latency;
    let cycles = times[edge.1 as usize] - (times[edge.0 as usize] + latency);
    u128::from(weight_along(&b.problem, edge)) * u128::from(cycles)
}

fn sum_of_kept(b: &ReportBlock) -> u128
    requires valid { IsValidProblem b.now.problem }
    requires times { length b.now.times ≡ length b.now.problem.ops }
    requires after { All (IsAfter b.now.problem (times_of b.now)) b.now.problem.edges }
    ensures is { result ≡ sum_by (kept_along b.now.problem (times_of b.now)) b.now.problem.edges }
    ensures small { result < 20282409603651670423947251286016 }
{
    let mut sum = 0;
    'edges: for edge in b.problem.edges.as_slice() {
        sum += kept(b, *edge);
    }
    sum
}

/// Whether the printed cost is that of the times, which keep the edges.
pub(crate) fn is_cost(b: &ReportBlock) -> bool
    requires valid { IsValidProblem b.now.problem }
    requires times { length b.now.times ≡ length b.now.problem.ops }
    requires after { All (IsAfter b.now.problem (times_of b.now)) b.now.problem.edges }
    ensures { result ≡ (b.now.cost == cost b.now.problem (times_of b.now)) }
{
    u128::from(b.cost) == sum_of_times(b.times.as_slice()) + sum_of_kept(b)
}

// For each operation what the parts at it amount to.
fn amounts_at(alloc: Global, count: usize, parts: &[(u32, u64)]) -> Result<Vec<u128>, Memory>
    ensures are { IfOk result (λ amounts. AreAmounts count parts.now amounts.items) }
    ensures small { IfOk result (λ amounts. (k : ℕ) → slice_index amounts.items k < 340282366920938463463374607431768211455) }
{
    let mut amounts = vec![in alloc; 0u128; count]?;
    let sums = amounts.as_mut_slice();
    'parts: for part in parts {
        let (place, amount) = *part;
        if (place as usize) < count {
            sums[place as usize] += u128::from(amount);
        }
    }
    Ok(amounts)
}

// The amounts that come in at operations, and the edges out of them.
fn parts_in(alloc: Global, b: &ReportBlock) -> Result<Vec<(u32, u64)>, Memory>
    requires valid { IsValidProblem b.now.problem }
    requires named { All (λ part. IsBoundOf b.now.problem part.0) b.now.flow }
    ensures { IfOk result (λ parts. parts.items ≡ parts_in b.now.problem b.now.flow) }
{
    let mut parts = Vec::new(alloc);
    'flow: for part in b.flow.as_slice() {
        parts.push((arc_of_bound(&b.problem, &part.0).to, part.1))?;
    }
    'edges: for edge in b.problem.edges.as_slice() {
        parts.push((edge.0, u64::from(weight_along(&b.problem, *edge))))?;
    }
    Ok(parts)
}

// The amounts that go out at operations, and the edges into them.
fn parts_out(alloc: Global, b: &ReportBlock) -> Result<Vec<(u32, u64)>, Memory>
    requires valid { IsValidProblem b.now.problem }
    requires named { All (λ part. IsBoundOf b.now.problem part.0) b.now.flow }
    ensures { IfOk result (λ parts. parts.items ≡ parts_out b.now.problem b.now.flow) }
{
    let mut parts = Vec::new(alloc);
    'flow: for part in b.flow.as_slice() {
        parts.push((arc_of_bound(&b.problem, &part.0).from, part.1))?;
    }
    'edges: for edge in b.problem.edges.as_slice() {
        parts.push((edge.1, u64::from(weight_along(&b.problem, *edge))))?;
    }
    Ok(parts)
}

// The first place at which the one is not one more than the other.
fn first_apart(more: &[u128], less: &[u128]) -> Option<usize>
    requires count { length more.now ≡ length less.now }
    requires small { (k : ℕ) → slice_index less.now k < 340282366920938463463374607431768211455 }
    ensures { Tells (length more.now) (λ k. slice_index more.now k ≢ slice_index less.now k + 1) result }
{
    'ops: for at in 0..more.len() {
        if more[at] != less[at] + 1 {
            return Some(at);
        }
    }
    None
}

/// The first operation at which the flow, whose bounds are those of the problem, is not in balance.
pub(crate) fn first_unbalanced(alloc: Global, b: &ReportBlock) -> Result<Option<usize>, Memory>
    requires valid { IsValidProblem b.now.problem }
    requires named { All (λ part. IsBoundOf b.now.problem part.0) b.now.flow }
    ensures { IfOk result (Tells (length b.now.problem.ops) (IsUnbalanced b.now)) }
{
    let count = b.problem.ops.len();
    let coming = amounts_at(alloc, count, parts_in(alloc, b)?.as_slice())?;
    let going = amounts_at(alloc, count, parts_out(alloc, b)?.as_slice())?;
    Ok(first_apart(coming.as_slice(), going.as_slice()))
}

// What the amounts times the numbers of the bounds upwards come to.
fn ups(b: &ReportBlock) -> u128
    requires valid { IsValidProblem b.now.problem }
    requires nodes { All IsNodeInForm b.now.problem.ops }
    requires named { All (λ part. IsBoundOf b.now.problem part.0) b.now.flow }
    requires few { length b.now.flow < 4294967296 }
    ensures is { result ≡ ups_of b.now.problem b.now.flow }
    ensures small { result < 20282409603651670423947251286016 }
{
    let mut sum = 0;
    'flow: for part in b.flow.as_slice() {
        sum += u128::from(part.1) * u128::from(arc_of_bound(&b.problem, &part.0).up);
    }
    sum
}

// And downwards.
fn downs(b: &ReportBlock) -> u128
    requires valid { IsValidProblem b.now.problem }
    requires nodes { All IsNodeInForm b.now.problem.ops }
    requires named { All (λ part. IsBoundOf b.now.problem part.0) b.now.flow }
    requires few { length b.now.flow < 4294967296 }
    ensures is { result ≡ downs_of b.now.problem b.now.flow }
    ensures small { result < 20282409603651670423947251286016 }
{
    let mut sum = 0;
    'flow: for part in b.flow.as_slice() {
        sum += u128::from(part.1) * u128::from(arc_of_bound(&b.problem, &part.0).down);
    }
    sum
}

// The latency of an edge, by the weight of the result that it carries.
fn latency_along(p: &Problem, edge: (u32, u32)) -> u128
    requires { edge.0 < length p.now.ops }
    ensures is { result ≡ weight_of (node_at p.now edge.0) * (node_at p.now edge.0).latency }
    ensures small { result ≤ 65025 }
{
    let latency = p.ops.as_slice()[edge.0 as usize].latency;
    u128::from(weight_along(p, edge)) * u128::from(latency)
}

// The latencies of the edges.
fn sum_of_latencies(p: &Problem) -> u128
    requires valid { IsValidProblem p.now }
    ensures is { result ≡ sum_by (λ e. weight_of (node_at p.now e.0) * (node_at p.now e.0).latency) p.now.edges }
    ensures small { result < 20282409603651670423947251286016 }
{
    let mut sum = 0;
    'edges: for edge in p.edges.as_slice() {
        sum += latency_along(p, *edge);
    }
    sum
}

/// Whether the flow, whose bounds are those of the problem, has the printed cost as its value.
pub(crate) fn is_value(b: &ReportBlock) -> bool
    requires valid { IsValidProblem b.now.problem }
    requires nodes { All IsNodeInForm b.now.problem.ops }
    requires named { All (λ part. IsBoundOf b.now.problem part.0) b.now.flow }
    requires few { length b.now.flow < 4294967296 }
    ensures { result ≡ has_value b.now.problem b.now.flow b.now.cost }
{
    ups(b) == u128::from(b.cost) + downs(b) + sum_of_latencies(&b.problem)
}
