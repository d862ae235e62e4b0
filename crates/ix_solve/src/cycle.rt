//! A contradiction among inequalities.

ghost use Rattle.std.specs.Prelude.{◌≡◌, ◌+◌, ◌<◌, ◌≤◌, length, IfOk, IfSome, IsNone, All};
ghost use Rattle.ix_solve.specs.Search.{IsClosed, IsFeasible, IsFramed, IsOverdue, IsSearch, Leads, arc_at, downs, reach_at, ups};

use crate::network::Network;
use crate::relax::settle;
use crate::search::{LIMIT, Search, start};
use ix_sheet::Arc;
use std::alloc::{AllocError, Global};

// the places of the arcs by which a node was reached
fn walk_to(
    alloc: Global,
    search: &Search,
    node: u32,
    network: &Network,
) -> Result<Vec<usize>, AllocError>
    requires search { IsSearch network.now search.now }
    requires inside { node ≤ network.now.root }
    ensures leads { IfOk result (λ walk. Leads network.now.arcs.items search.now.source walk.items node) }
    ensures sum { IfOk result (λ walk. ups network.now.arcs.items walk.items + LIMIT ≡ reach_at search.now node + downs network.now.arcs.items walk.items) }
    ensures within { IfOk result (λ walk. All (λ k. k < length network.now.arcs.items) walk.items) }
{
    let mut walk = Vec::new(alloc);
    let mut at = search.last[node as usize];
    'back: while at != 0 {
        let step = search.log[at];
        walk.push(step.place)?;
        at = step.parent;
    }
    walk.reverse();
    Ok(walk)
}

// the walk from the root to an arc that is late, the arc, and the way back to the root
fn cycle_by(
    alloc: Global,
    search: &Search,
    place: usize,
    network: &Network,
) -> Result<Vec<usize>, AllocError>
    requires framed { IsFramed network.now.root network.now.arcs.items }
    requires search { IsSearch network.now search.now }
    requires source { search.now.source ≡ network.now.root }
    requires overdue { IsOverdue network.now search.now place }
    ensures { IfOk result (λ cycle. IsClosed network.now.arcs.items cycle.items) }
{
    let arc = network.arcs[place];
    let mut cycle = walk_to(alloc, search, arc.from, network)?;
    cycle.push(place)?;
    if arc.to < network.root {
        cycle.push(network.root as usize + arc.to as usize)?;
        return Ok(cycle);
    }
    Ok(cycle)
}

// an arc from a node to itself that no time meets
fn first_loop(arcs: &[Arc]) -> Option<usize>
    ensures { IfSome result (λ k. (k < length arcs.now) × ((arc_at arcs.now k).from ≡ (arc_at arcs.now k).to) × ((arc_at arcs.now k).down < (arc_at arcs.now k).up)) }
{
    'arcs: for (place, arc) in arcs.iter().enumerate() {
        if arc.from == arc.to && arc.up > arc.down {
            return Some(place);
        }
    }
    None
}

/// The places of inequalities that lead back to where they start and that no times meet, or None where some times meet all.
pub fn contradiction(alloc: Global, network: &Network) -> Result<Option<Vec<usize>>, AllocError>
    requires { IsFramed network.now.root network.now.arcs.items }
    ensures some { IfOk result (λ found. IfSome found (λ cycle. IsClosed network.now.arcs.items cycle.items)) }
    ensures none { IfOk result (λ found. IsNone found → IsFeasible network.now.root network.now.arcs.items) }
{
    if let Some(place) = first_loop(network.arcs.as_slice()) {
        return Ok(Some(vec![in alloc; place]?));
    }
    let mut search = start(alloc, network, network.root)?;
    match settle(&mut search, network)? {
        Some(place) => Ok(Some(cycle_by(alloc, &search, place, network)?)),
        None => Ok(None),
    }
}
