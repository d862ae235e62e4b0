//! What a flow has to bring to each operation.

ghost use Rattle.std.specs.Prelude.{◌≡◌, ◌+◌, ◌<◌, length, IfOk};
ghost use Rattle.ix_sheet.specs.Schedules.{IsValidProblem, weight_of};
ghost use Rattle.ix_residual.specs.Balances.{balances};
ghost use Rattle.ix_residual.specs.Counts.{IsCountedTo};

use ix_bits::{List, Memory};
use ix_sheet::{Node, Problem};
use std::alloc::Global;

/// What it costs to keep an operation's result for one time.
pub fn weight(node: Node) -> u64
    ensures { result ≡ weight_of node }
{
    u64::from(node.weight)
}

// each operation needs one, for its own time; the root has these to spare
fn first_balances(alloc: Global, p: &Problem) -> Result<Vec<i64>, Memory>
    requires { IsValidProblem p.now }
    ensures { IfOk result (λ left. IsCountedTo p.now 0 left.items) }
{
    let ops = p.ops.len();
    let mut left = Vec::new(alloc);
    'ops: for _ in 0..ops {
        left.push(1)?;
    }
    left.push(-(ops as i64))?;
    Ok(left)
}

// the end of an edge needs its weight more, and its start less
fn count(left: &mut Vec<i64>, index: usize, p: &Problem)
    requires valid { IsValidProblem p.now }
    requires counted { IsCountedTo p.now index left.old.items }
    requires within { index < length p.now.edges }
    ensures { IsCountedTo p.now (index + 1) left.new.items }
{
    let (from, to) = p.edges.as_slice()[index];
    let weight = weight(p.ops.as_slice()[from as usize]) as i64;
    left[to as usize] += weight;
    left[from as usize] -= weight;
}

/// The balances of a problem, the root's last.
pub fn balances(alloc: Global, p: &Problem) -> Result<List<i64>, Memory>
    requires { IsValidProblem p.now }
    ensures { IfOk result (λ left. left ≡ balances p.now) }
{
    let mut left = first_balances(alloc, p)?;
    'edges: for index in 0..p.edges.len() {
        count(&mut left, index, p);
    }
    Ok(List::from_vec(left))
}
