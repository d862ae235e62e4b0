ghost use Rattle.std.specs.Prelude.{◌≡◌, ◌<◌, ◌≤◌, ◌*◌, IfOk, length, All, None};
ghost use Rattle.ix_sheet.specs.Schedules.{IsValidProblem};
ghost use Rattle.ix_problem.specs.Reaches.{AreAllStarts, AreWithin, free_into, better_of, best_of, reach_after, AreReaches};

use ix_bits::{List, Memory};
use ix_sheet::Problem;
use std::alloc::Global;

/// How an operation is reached from a source along free edges: the greatest delay of a path to it, its own included, and
/// the operation before it on such a path.
#[derive(Clone, Copy)]
pub(crate) struct Reach {
    pub(crate) delay: u64,
    pub(crate) parent: u32,
}

// The starts of the free edges to an operation.
fn starts_of(alloc: Global, p: &Problem, to: u32) -> Result<List<u32>, Memory>
    requires { IsValidProblem p.now }
    ensures { IfOk result (λ starts. starts ≡ free_into p.now to p.now.edges) }
{
    let ops = p.ops.as_slice();
    let mut starts = List::new(alloc);
    'edges: for edge in p.edges.as_slice() {
        if edge.1 == to && ops[edge.0 as usize].latency == 0 {
            starts.push(edge.0)?;
        }
    }
    Ok(starts)
}

/// For each operation the starts of the free edges to it.
pub(crate) fn free_starts(alloc: Global, p: &Problem) -> Result<Vec<List<u32>>, Memory>
    requires { IsValidProblem p.now }
    ensures all { IfOk result (λ starts. AreAllStarts p.now starts.items) }
    ensures count { IfOk result (λ starts. length starts.items ≡ length p.now.ops) }
{
    let mut starts = Vec::new(alloc);
    'ops: for to in 0..p.ops.len() {
        starts.push(starts_of(alloc, p, to as u32)?)?;
    }
    Ok(starts)
}

// The start that is reached with the greatest delay.
fn best_start(reaches: &[Option<Reach>], starts: &[u32]) -> Option<Reach>
    requires { All (λ k. k < length reaches.now) starts.now }
    ensures { result ≡ best_of reaches.now None starts.now }
{
    let mut best = None;
    'starts: for start in starts {
        best = better(best, reaches[*start as usize], *start);
    }
    best
}

// The better of what was found and of a start.
fn better(best: Option<Reach>, reach: Option<Reach>, start: u32) -> Option<Reach>
    ensures { result ≡ better_of best reach start }
{
    match (best, reach) {
        (_, None) => best,
        (Some(old), Some(new)) if new.delay <= old.delay => best,
        (_, Some(new)) => Some(Reach {
            delay: new.delay,
            parent: start,
        }),
    }
}

// How the operation is reached, where those before it are known.
fn reach_of(
    reaches: &[Option<Reach>],
    source: u32,
    at: u32,
    delay: u32,
    starts: &[u32],
) -> Option<Reach>
    requires inside { All (λ k. k < length reaches.now) starts.now }
    requires few { length reaches.now ≤ 65536 }
    requires small { AreWithin (length reaches.now * 4294967295) reaches.now }
    ensures is { result ≡ reach_after reaches.now source at delay starts.now }
    ensures small { delay ≤ 4294967295 }
{
    if at == source {
        return Some(Reach {
            delay: u64::from(delay),
            parent: at,
        });
    }
    match best_start(reaches, starts) {
        None => None,
        Some(best) => Some(Reach {
            delay: best.delay + u64::from(delay),
            parent: best.parent,
        }),
    }
}

/// How each operation is reached from the source.
pub(crate) fn reach_all(
    alloc: Global,
    p: &Problem,
    starts: &[List<u32>],
    source: u32,
) -> Result<Vec<Option<Reach>>, Memory>
    requires valid { IsValidProblem p.now }
    requires count { length starts.now ≡ length p.now.ops }
    requires all { AreAllStarts p.now starts.now }
    ensures count { IfOk result (λ reaches. length reaches.items ≡ length p.now.ops) }
    ensures reaches { IfOk result (λ reaches. AreReaches p.now source reaches.items) }
{
    let ops = p.ops.as_slice();
    let mut reaches = Vec::new(alloc);
    'ops: for at in 0..ops.len() {
        let reach = reach_of(
            reaches.as_slice(),
            source,
            at as u32,
            ops[at].delay,
            starts[at].as_slice(),
        );
        reaches.push(reach)?;
    }
    Ok(reaches)
}
