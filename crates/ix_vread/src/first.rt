ghost use Rattle.std.specs.Prelude.{ℕ, ◌<◌, length, All, IfOk, MatchOption};
ghost use Rattle.ix_vread.specs.Graphs.{AreReaders, Edge, HasNoLoop, IsFirstOnLoop};
ghost use Rattle.ix_vread.specs.Loops.{AreDrivenOnce, IsLoopless, IsFirstLoop, FirstLoop};
ghost use Rattle.ix_vread.specs.Orders.{IsOrder};
ghost use Rattle.ix_vread.specs.Searches.{IsLooped};

use crate::graph::graph_of;
use crate::mark::{Mark, is_looped};
use crate::order::order_of;
use crate::readers::readers_of;
use crate::search::loops_in;
use ix_bits::{List, Memory, Name};
use ix_net::Net;
use std::alloc::Global;

fn first_looped(marks: &[Mark]) -> Option<usize>
    ensures { MatchOption result ((k : ℕ) → IsLooped marks.now k → ⊥) (λ k. IsLooped marks.now k × ((j : ℕ) → j < k → IsLooped marks.now j → ⊥)) }
{
    for (cell, mark) in marks.iter().enumerate() {
        if is_looped(*mark) {
            return Some(cell);
        }
    }
    None
}

/// The first cell that depends on itself, by the lists of readers and an order in which a search
/// leaves the cells behind.
fn first_by(
    alloc: Global,
    graph: &[List<usize>],
    readers: &[List<usize>],
    order: &[usize],
) -> Result<Option<usize>, Memory>
    requires readers { AreReaders graph.now readers.now }
    requires order { IsOrder (Edge graph.now) (length graph.now) order.now }
    ensures { IfOk result (λ o. MatchOption o (HasNoLoop graph.now) (IsFirstOnLoop graph.now)) }
{
    let marks = loops_in(alloc, readers, order)?;
    Ok(first_looped(&marks))
}

/// The first cell that depends on itself. Two searches find all that do, in a time linear in what
/// the cells read: one orders the cells, the other goes from each, the last one first, to those
/// that read it (Kosaraju's and Sharir's way to strong components).
fn first_on_loop(alloc: Global, graph: &[List<usize>]) -> Result<Option<usize>, Memory>
    ensures { IfOk result (λ o. MatchOption o (HasNoLoop graph.now) (IsFirstOnLoop graph.now)) }
{
    let order = order_of(alloc, graph)?;
    let readers = readers_of(alloc, graph)?;
    first_by(alloc, graph, &readers, &order)
}

/// The target of the first cell that depends on itself without a bank.
pub fn first_loop(alloc: Global, net: &Net) -> Result<Option<Name>, Memory>
    requires { AreDrivenOnce net.now.cells }
    ensures { IfOk result (λ o. MatchOption o (IsLoopless net.now) (IsFirstLoop net.now)) }
{
    let graph = graph_of(alloc, net.cells.as_slice())?;
    match first_on_loop(alloc, &graph)? {
        Some(cell) => {
            let name = Name::from_text(alloc, net.cells.as_slice()[cell].target.as_str())?;
            Ok(Some(name))
        }
        None => Ok(None),
    }
}

/// The same of nets one after another.
pub fn first_loop_in(alloc: Global, nets: &[Net]) -> Result<Option<Name>, Memory>
    requires { All (λ net. AreDrivenOnce net.cells) nets.now }
    ensures { IfOk result (λ o. MatchOption o (All IsLoopless nets.now) (FirstLoop nets.now)) }
{
    for net in nets {
        if let Some(name) = first_loop(alloc, net)? {
            return Ok(Some(name));
        }
    }
    Ok(None)
}
