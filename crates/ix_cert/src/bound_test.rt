ghost use Rattle.std.specs.Prelude.{◌≡◌, ◌<◌, ◌≤◌, length, All, AllPairs};
ghost use Rattle.ix_sheet.specs.Schedules.{delay_along};
ghost use Rattle.ix_cert.specs.Layout.{IsBefore, IsBoundInForm};
ghost use Rattle.ix_cert.specs.Checks.{is_before, has_edge, is_joined, has_all_runs, names_bound};

use ix_sheet::{Bound, Problem};

// Whether an edge stands before another: by the end, and then by the start.
fn is_before(edge: (u32, u32), other: (u32, u32)) -> bool
    ensures { result ≡ is_before edge other }
{
    edge.1 < other.1 || (edge.1 == other.1 && edge.0 < other.0)
}

// Whether the edges, which are in order, have this one.
fn has_edge_among(edges: &[(u32, u32)], edge: (u32, u32)) -> bool
    requires { AllPairs IsBefore edges.now }
    ensures { result ≡ has_edge edges.now edge.0 edge.1 }
{
    let mut low = 0;
    let mut high = edges.len();
    'halves: while low < high {
        let middle = low + (high - low) / 2;
        let found = edges[middle];
        if found == edge {
            return true;
        }
        if is_before(found, edge) {
            low = middle + 1;
        } else {
            high = middle;
        }
    }
    false
}

// Whether a free edge joins the operations.
fn is_joined(p: &Problem, from: u32, to: u32) -> bool
    requires ordered { AllPairs IsBefore p.now.edges }
    requires below { from < length p.now.ops }
    ensures { result ≡ is_joined p.now from to }
{
    has_edge_among(p.edges.as_slice(), (from, to)) && p.ops.as_slice()[from as usize].latency == 0
}

// Whether each operation of the path but the first is joined to the one before it by a free edge.
fn runs(p: &Problem, path: &[u32]) -> bool
    requires ordered { AllPairs IsBefore p.now.edges }
    requires below { All (λ k. k < length p.now.ops) path.now }
    ensures { result ≡ has_all_runs p.now path.now }
{
    'steps: for at in 1..path.len() {
        if !is_joined(p, path[at - 1], path[at]) {
            return false;
        }
    }
    true
}

// The delays of the operations of a path, one after the other.
fn delay_of(p: &Problem, path: &[u32]) -> u128
    requires { All (λ k. k < length p.now.ops) path.now }
    ensures { result ≡ delay_along p.now path.now }
{
    let ops = p.ops.as_slice();
    let mut sum = 0;
    'path: for op in path {
        sum += u128::from(ops[*op as usize].delay);
    }
    sum
}

/// Whether the bound, whose operations there are, is one of the problem, whose edges are in order.
pub(crate) fn is_bound(p: &Problem, bound: &Bound) -> bool
    requires ordered { AllPairs IsBefore p.now.edges }
    requires form { IsBoundInForm (length p.now.ops) bound.now }
    ensures { result ≡ names_bound p.now bound.now }
{
    match bound {
        Bound::Early(_) | Bound::Late(_) => true,
        Bound::Dep(from, to) => has_edge_among(p.edges.as_slice(), (*from, *to)),
        Bound::Chain(path) => {
            let path = path.as_slice();
            runs(p, path) && u128::from(p.period) < delay_of(p, path)
        }
    }
}
