ghost use Rattle.std.specs.Prelude.{◌≡◌, ◌≢◌, ◌≤◌, ◌<◌, ℕ, false, length, slice_index_or, All, IfOk, IfSome};
ghost use Rattle.ix_sheet.specs.Schedules.{IsWeighed, IsValidProblem};
ghost use Rattle.ix_residual.specs.Residuals.{AreAugmentations};
ghost use Rattle.ix_residual.specs.Balances.{fresh};

use ix_bits::{List, Memory};
use ix_residual::{Path, Residual};
use ix_sheet::{Bound, Node, Problem};
use ix_solve::{SolveErr, Traced, solve_traced};
use std::alloc::{AllocError, Global};
use std::str::SplitAsciiWhitespace;

/// The next word as a number.
fn number(words: &mut SplitAsciiWhitespace<'_>) -> Option<u32> {
    words.next()?.parse().ok()
}

/// The next word as a number of one byte.
fn byte(words: &mut SplitAsciiWhitespace<'_>) -> Option<u8> {
    words.next()?.parse().ok()
}

/// The next word as a weight, if words have weights; 1 where they have none.
fn weight(words: &mut SplitAsciiWhitespace<'_>, weighted: bool) -> Option<u8>
    ensures { IfSome result (λ weight. (1 ≤ weight) × (weight ≤ 128)) }
{
    if !weighted {
        return Some(1);
    }
    let weight = byte(words)?;
    if weight < 1 || weight > 128 {
        return None;
    }
    Some(weight)
}

/// The operation that the next words write: four, or five where one is a weight.
fn node(words: &mut SplitAsciiWhitespace<'_>, weighted: bool) -> Option<Node>
    ensures { IfSome result IsWeighed }
{
    Some(Node {
        delay: number(words)?,
        latency: byte(words)?,
        weight: weight(words, weighted)?,
        early: byte(words)?,
        late: byte(words)?,
    })
}

/// The operations that the next words write, so many at most.
fn nodes(
    alloc: Global,
    words: &mut SplitAsciiWhitespace<'_>,
    weighted: bool,
    count: u32,
) -> Result<List<Node>, Memory>
    requires { count ≤ 65536 }
    ensures few { IfOk result (λ ops. length ops ≤ 65536) }
    ensures weighed { IfOk result (λ ops. All IsWeighed ops) }
{
    let mut ops = List::new(alloc);
    for _ in 0..count {
        let Some(node) = node(words, weighted) else {
            return Ok(ops);
        };
        ops.push(node)?;
    }
    Ok(ops)
}

/// Whether an edge stands among edges.
fn has_edge(edges: &[(u32, u32)], from: u32, to: u32) -> bool
    ensures { result ≡ false → (k : ℕ) → k < length edges.now
        → slice_index_or edges.now k (0, 0) ≢ (from, to) }
{
    for edge in edges {
        if *edge == (from, to) {
            return true;
        }
    }
    false
}

/// Puts an edge to a problem, if the problem is valid with it.
fn push_edge(p: &mut Problem, from: u32, to: u32) -> Result<(), Memory>
    requires { IsValidProblem p.old }
    ensures { IfOk result (λ _. IsValidProblem p.new) }
{
    if from >= to {
        return Ok(());
    }
    if to as usize >= p.ops.len() {
        return Ok(());
    }
    if has_edge(p.edges.as_slice(), from, to) {
        return Ok(());
    }
    p.edges.push((from, to))?;
    Ok(())
}

/// The problem of a line without its edges.
fn without_edges(
    alloc: Global,
    words: &mut SplitAsciiWhitespace<'_>,
    weighted: bool,
) -> Result<Problem, Memory>
    ensures { IfOk result IsValidProblem }
{
    let period = number(words).unwrap_or(0);
    let count = number(words).unwrap_or(0).min(65536);
    let ops = nodes(alloc, words, weighted, count)?;
    Ok(Problem {
        ops,
        edges: List::new(alloc),
        period,
    })
}

/// The problem of a line.
fn problem(alloc: Global, line: &str, weighted: bool) -> Result<Problem, Memory>
    ensures { IfOk result IsValidProblem }
{
    let mut words = line.split_ascii_whitespace();
    let mut p = without_edges(alloc, &mut words, weighted)?;
    for _ in 0..line.len() {
        let (Some(from), Some(to)) = (number(&mut words), number(&mut words)) else {
            return Ok(p);
        };
        push_edge(&mut p, from, to)?;
    }
    Ok(p)
}

/// The flow that the augmentations make, and what it leaves.
fn replay(
    alloc: Global,
    p: &Problem,
    bounds: List<Bound>,
    paths: &[Path],
) -> Result<Residual, Memory>
    requires valid { IsValidProblem p.now }
    requires turns { AreAugmentations (fresh p.now bounds) paths.now }
{
    let mut residual = Residual::new(alloc, p, bounds)?;
    'paths: for path in paths {
        residual.augment(path);
    }
    Ok(residual)
}

/// Whether nothing is left, and the amounts above 0 are those of the flow, in order.
fn agrees(residual: &Residual, flow: &[(Bound, u64)]) -> bool {
    let mut next = 0;
    for amount in residual.amounts.as_slice() {
        if *amount > 0 {
            if next >= flow.len() {
                return false;
            }
            if flow[next].1 != *amount {
                return false;
            }
            next += 1;
        }
    }
    next == flow.len() && residual.left.as_slice().iter().all(|left| *left == 0)
}

/// The weights of the edges to an operation, each the weight of its start.
fn weight_in(p: &Problem, op: usize) -> u64 {
    let mut sum: u64 = 0;
    for (from, to) in p.edges.as_slice() {
        if *to as usize == op {
            let start = p.ops.as_slice().get(*from as usize);
            sum = sum.saturating_add(start.map_or(0, |node| u64::from(node.weight)));
        }
    }
    sum
}

/// The sum of the positive balances, of one more than the weights of the edges in less those of
/// the edges out.
fn needs(p: &Problem) -> u64 {
    let edges = p.edges.as_slice();
    let mut sum: u64 = 0;
    for (op, node) in p.ops.as_slice().iter().enumerate() {
        let outs = edges.iter().filter(|edge| edge.0 as usize == op).count() as u64;
        let out = outs.saturating_mul(u64::from(node.weight));
        let need = weight_in(p, op).saturating_add(1).saturating_sub(out);
        sum = sum.saturating_add(need);
    }
    sum
}

/// Puts the cost and the times of a schedule, and what the replay of its augmentations finds amiss.
fn put_solved(
    out: &mut String,
    alloc: Global,
    p: &Problem,
    traced: Traced,
) -> Result<(), AllocError>
    requires valid { IsValidProblem p.now }
    requires turns { AreAugmentations (fresh p.now traced.bounds) traced.paths }
{
    let Traced {
        solved,
        bounds,
        paths,
    } = traced;
    write!(out, "{}:", solved.cost)?;
    for time in solved.times.as_slice() {
        write!(out, " {time}")?;
    }
    out.push_str("\n")?;
    if paths.len() as u64 > needs(p) {
        out.push_str("too many paths\n")?;
    }
    match replay(alloc, p, bounds, paths.as_slice()) {
        Ok(residual) => {
            if agrees(&residual, solved.flow.as_slice()) {
                Ok(())
            } else {
                out.push_str("replay differs\n")
            }
        }
        Err(Memory) => out.push_str("memory\n"),
    }
}

/// Puts the cost of the schedule of a problem, and how many augmentations it took.
fn put_paths(out: &mut String, alloc: Global, p: &Problem) -> Result<(), AllocError>
    requires { IsValidProblem p.now }
{
    match solve_traced(alloc, p) {
        Ok(traced) => writeln!(out, "{}: {} paths", traced.solved.cost, traced.paths.len()),
        Err(SolveErr::Cycle(_)) => out.push_str("cycle\n"),
        Err(SolveErr::Memory) => out.push_str("memory\n"),
    }
}

/// Puts the schedule of a problem, or that it has none.
fn put_schedule(out: &mut String, alloc: Global, p: &Problem) -> Result<(), AllocError>
    requires { IsValidProblem p.now }
{
    match solve_traced(alloc, p) {
        Ok(traced) => put_solved(out, alloc, p, traced),
        Err(SolveErr::Cycle(_)) => out.push_str("cycle\n"),
        Err(SolveErr::Memory) => out.push_str("memory\n"),
    }
}

/// What is asked of problems.
#[derive(Clone, Copy, PartialEq, Eq)]
pub(crate) enum Asked {
    /// Costs and times, of operations without weights.
    Times,
    /// Costs and times, of operations with weights.
    WeightedTimes,
    /// Costs and counts of augmentations, of operations with weights.
    Paths,
}

/// Puts a line for each line of a text: the cost and the times of the schedule of its problem, or
/// the cost and the count of augmentations, or `cycle` where there is none. A problem has the
/// period, the count of operations, the delay, latency, weight where there are weights, first and
/// last time of each, and the edges.
///
/// The augmentations of each schedule are replayed: a line `replay differs` follows where they do
/// not make its flow, and `too many paths` where there are more than the positive balances sum
/// to.
pub(crate) fn put_answer(
    out: &mut String,
    alloc: Global,
    asked: Asked,
    text: &[u8],
) -> Result<(), AllocError> {
    let weighted = asked != Asked::Times;
    let Ok(text) = std::str::from_utf8(text) else {
        return out.push_str("no text\n");
    };
    for line in text.lines() {
        match problem(alloc, line, weighted) {
            Ok(p) if asked == Asked::Paths => put_paths(out, alloc, &p)?,
            Ok(p) => put_schedule(out, alloc, &p)?,
            Err(Memory) => out.push_str("memory\n")?,
        }
    }
    Ok(())
}
