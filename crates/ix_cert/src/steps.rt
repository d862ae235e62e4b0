ghost use Rattle.std.specs.Prelude.{◌≡◌, ◌<◌, ◌≤◌, ◌+◌, ℕ, max, map, length, All, AllPairs, IfOk, IfNone, slice_index, slice_index_or};
ghost use Rattle.ix_sheet.specs.declared.problem.Bound.TheVariants.{Early};
ghost use Rattle.ix_sheet.specs.Schedules.{IsValidProblem, IsAfter, IsInWindow, node_at};
ghost use Rattle.ix_sheet.specs.Bounds.{IsBoundOf};
ghost use Rattle.ix_cert.specs.Layout.{IsBefore, IsBoundInForm};
ghost use Rattle.ix_cert.specs.Faults.{IsBroken, IsOutside, IsPassed, NamesNone, IsUnbalanced, IsOpen, times_of, blank_part};
ghost use Rattle.ix_cert.specs.Checks.{Tells, keeps_edge, joins_edge, delay_at, AreSmall, AreReached};

use crate::bound_test::is_bound;
use crate::report::ReportBlock;
use ix_bits::Memory;
use ix_sheet::Node;
use std::alloc::Global;

// Whether the times keep the edge.
fn keeps(b: &ReportBlock, edge: (u32, u32)) -> bool
    requires from { edge.0 < length b.now.problem.ops }
    requires to { edge.1 < length b.now.problem.ops }
    requires times { length b.now.times ≡ length b.now.problem.ops }
    ensures { result ≡ keeps_edge b.now.problem (times_of b.now) edge }
{
    let times = b.times.as_slice();
    let first = times[edge.0 as usize];
    let latency = b.problem.ops.as_slice()[edge.0 as usize].latency;
    u16::from(first) + u16::from(latency) <= u16::from(times[edge.1 as usize])
}

/// The first edge that the times break.
pub(crate) fn first_broken(b: &ReportBlock) -> Option<usize>
    requires valid { IsValidProblem b.now.problem }
    requires times { length b.now.times ≡ length b.now.problem.ops }
    ensures { Tells (length b.now.problem.edges) (IsBroken b.now) result }
{
    let edges = b.problem.edges.as_slice();
    'edges: for at in 0..edges.len() {
        if !keeps(b, edges[at]) {
            return Some(at);
        }
    }
    None
}

/// The first operation outside its window.
pub(crate) fn first_outside(b: &ReportBlock) -> Option<usize>
    requires times { length b.now.times ≡ length b.now.problem.ops }
    ensures { Tells (length b.now.problem.ops) (IsOutside b.now) result }
{
    let ops = b.problem.ops.as_slice();
    let times = b.times.as_slice();
    'ops: for at in 0..ops.len() {
        if times[at] < ops[at].early || ops[at].late < times[at] {
            return Some(at);
        }
    }
    None
}

fn delays(alloc: Global, ops: &[Node]) -> Result<Vec<u64>, Memory>
    ensures are { IfOk result (λ delays. delays.items ≡ map (λ node. node.delay) ops.now) }
    ensures small { IfOk result (λ delays. (k : ℕ) → slice_index delays.items k ≤ 4294967295) }
{
    let mut delays = Vec::new(alloc);
    'ops: for node in ops {
        let Ok(()) = delays.push(u64::from(node.delay)) else {
            drop(delays);
            return Err(Memory);
        };
    }
    Ok(delays)
}

// For each operation the greatest delay along a path within one time that ends there.
fn delays_within_times(alloc: Global, b: &ReportBlock) -> Result<Vec<u64>, Memory>
    requires valid { IsValidProblem b.now.problem }
    requires times { length b.now.times ≡ length b.now.problem.ops }
    requires ordered { AllPairs IsBefore b.now.problem.edges }
    ensures { IfOk result (λ reach. AreReached b.now.problem (times_of b.now) (length b.now.problem.edges) reach.items) }
{
    let ops = b.problem.ops.as_slice();
    let Ok(reach) = delays(alloc, ops) else {
        return Err(Memory);
    };
    let mut reach = reach;
    follow_edges(b, reach.as_mut_slice());
    Ok(reach)
}

// Whether the edge is free and both ends have one time.
fn joins(b: &ReportBlock, edge: (u32, u32)) -> bool
    requires from { edge.0 < length b.now.problem.ops }
    requires to { edge.1 < length b.now.problem.ops }
    requires times { length b.now.times ≡ length b.now.problem.ops }
    ensures { result ≡ joins_edge b.now.problem (times_of b.now) edge }
{
    let times = b.times.as_slice();
    let ops = b.problem.ops.as_slice();
    ops[edge.0 as usize].latency == 0 && times[edge.0 as usize] == times[edge.1 as usize]
}

// The delay of the end of an edge: along that edge, if this is greater.
fn longer(b: &ReportBlock, edge: (u32, u32), reach: &[u64]) -> u64
    requires from { edge.0 < length b.now.problem.ops }
    requires to { edge.1 < length b.now.problem.ops }
    requires count { length reach.now ≡ length b.now.problem.ops }
    requires small { slice_index reach.now edge.0 ≤ 281474976710656 }
    ensures is { result ≡ max (slice_index reach.now edge.0 + delay_at b.now.problem edge.1) (slice_index reach.now edge.1) }
    ensures small { delay_at b.now.problem edge.1 ≤ 4294967295 }
{
    let delay = b.problem.ops.as_slice()[edge.1 as usize].delay;
    (reach[edge.0 as usize] + u64::from(delay)).max(reach[edge.1 as usize])
}

// Lengthens the paths along the edges, in their order.
fn follow_edges(b: &ReportBlock, reach: &mut [u64])
    requires valid { IsValidProblem b.now.problem }
    requires times { length b.now.times ≡ length b.now.problem.ops }
    requires ordered { AllPairs IsBefore b.now.problem.edges }
    requires begun { AreReached b.now.problem (times_of b.now) 0 reach.old }
    requires small { AreSmall reach.old }
    ensures { AreReached b.now.problem (times_of b.now) (length b.now.problem.edges) reach.new }
{
    let edges = b.problem.edges.as_slice();
    'edges: for at in 0..edges.len() {
        let edge = edges[at];
        if joins(b, edge) {
            reach[edge.1 as usize] = longer(b, edge, reach);
        }
    }
}

// The first operation whose delay passes the period.
fn first_above(period: u32, reach: &[u64]) -> Option<usize>
    ensures { Tells (length reach.now) (λ k. period < slice_index reach.now k) result }
{
    'ops: for at in 0..reach.len() {
        if u64::from(period) < reach[at] {
            return Some(at);
        }
    }
    None
}

/// The first operation at which the delays along a path within one time pass the period.
pub(crate) fn first_passed(alloc: Global, b: &ReportBlock) -> Result<Option<usize>, Memory>
    requires valid { IsValidProblem b.now.problem }
    requires times { length b.now.times ≡ length b.now.problem.ops }
    requires ordered { AllPairs IsBefore b.now.problem.edges }
    ensures { IfOk result (Tells (length b.now.problem.ops) (IsPassed b.now.problem (times_of b.now))) }
{
    let Ok(reach) = delays_within_times(alloc, b) else {
        return Err(Memory);
    };
    Ok(first_above(b.problem.period, reach.as_slice()))
}

/// The first part of the flow whose bound is none of the problem.
pub(crate) fn first_unnamed_part(b: &ReportBlock) -> Option<usize>
    requires ordered { AllPairs IsBefore b.now.problem.edges }
    requires form { All (λ part. IsBoundInForm (length b.now.problem.ops) part.0) b.now.flow }
    ensures first { Tells (length b.now.flow) (λ k. NamesNone b.now.problem (slice_index_or b.now.flow k blank_part).0) result }
    ensures named { IfNone result (All (λ part. IsBoundOf b.now.problem part.0) b.now.flow) }
{
    let flow = b.flow.as_slice();
    'parts: for at in 0..flow.len() {
        if !is_bound(&b.problem, &flow[at].0) {
            return Some(at);
        }
    }
    None
}

/// The first bound of the cycle that is none of the problem.
pub(crate) fn first_unnamed(b: &ReportBlock) -> Option<usize>
    requires ordered { AllPairs IsBefore b.now.problem.edges }
    requires form { All (IsBoundInForm (length b.now.problem.ops)) b.now.cycle }
    ensures first { Tells (length b.now.cycle) (λ k. NamesNone b.now.problem (slice_index_or b.now.cycle k (Early 0))) result }
    ensures named { IfNone result (All (IsBoundOf b.now.problem) b.now.cycle) }
{
    let cycle = b.cycle.as_slice();
    'bounds: for at in 0..cycle.len() {
        if !is_bound(&b.problem, &cycle[at]) {
            return Some(at);
        }
    }
    None
}
