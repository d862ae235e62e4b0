ghost use Rattle.std.specs.Prelude.{◌≡◌, ◌<◌, ℕ, false, length, slice_index_or, Contains, IfOk, OnOk, MatchOption};
ghost use Rattle.ix_vread.specs.Graphs.{Edge};
ghost use Rattle.ix_vread.specs.Orders.{IsMarked, IsOrder, IsResting, Leaves};

use ix_bits::{List, Memory};
use std::alloc::Global;

/// The first of the cells that is not marked.
fn first_unmarked(cells: &[usize], marks: &[bool]) -> Option<usize>
    ensures { MatchOption result ((k : ℕ) → k < length marks.now → Contains cells.now k → IsMarked marks.now k)
        (λ k. (k < length marks.now) × Contains cells.now k × (slice_index_or marks.now k false ≡ false)) }
{
    for cell in cells {
        if *cell < marks.len() && !marks[*cell] {
            return Some(*cell);
        }
    }
    None
}

/// Marks a cell and all that it depends on, and puts each behind the order when all that it reads
/// is marked.
fn leave(
    alloc: Global,
    graph: &[List<usize>],
    root: usize,
    marks: &mut [bool],
    order: &mut Vec<usize>,
) -> Result<(), Memory>
    requires cell { root < length graph.now }
    requires unmarked { slice_index_or marks.old root false ≡ false }
    requires resting { IsResting graph.now marks.old order.old.items }
    ensures { OnOk result (Leaves graph.now marks.old marks.new order.new.items root) }
{
    let mut path = Vec::new(alloc);
    path.push(root)?;
    marks[root] = true;
    while let Some(cell) = path.pop() {
        match first_unmarked(graph[cell].as_slice(), marks) {
            None => order.push(cell)?,
            Some(next) => {
                path.push(cell)?;
                path.push(next)?;
                marks[next] = true;
            }
        }
    }
    Ok(())
}

/// The order in which a depth-first search leaves the cells behind.
pub fn order_of(alloc: Global, graph: &[List<usize>]) -> Result<Vec<usize>, Memory>
    ensures { IfOk result (λ order. IsOrder (Edge graph.now) (length graph.now) order.items) }
{
    let mut marks = vec![in alloc; false; graph.len()]?;
    let mut order = Vec::with_capacity(alloc, graph.len())?;
    let seen = marks.as_mut_slice();
    'roots: for root in 0..graph.len() {
        if !seen[root] {
            leave(alloc, graph, root, seen, &mut order)?;
        }
    }
    Ok(order)
}
