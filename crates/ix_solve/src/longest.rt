//! Longest paths over inequalities that some times meet, and the least of these times.

ghost use Rattle.std.specs.Prelude.{◌≡◌, ◌+◌, ◌<◌, ◌≤◌, length, map, slice_index, IfOk, All};
ghost use Rattle.ix_sheet.specs.Bounds.{IsTight, Meets};
ghost use Rattle.ix_solve.specs.Networks.{IsLongestPath, IsNetwork, step_of};
ghost use Rattle.ix_solve.specs.Search.{AreApart, AreLeast, Follows, IsFeasible, IsFramed, IsSearch, reach_at, step_at};

use crate::network::Network;
use crate::relax::settle;
use crate::search::{Search, Step, start, times_of};
use ix_bits::{List, Memory};
use std::alloc::{AllocError, Global};

// the longest walks from a node
fn reached(alloc: Global, network: &Network, source: u32) -> Result<Search, AllocError>
    requires framed { IsFramed network.now.root network.now.arcs.items }
    requires inside { source ≤ network.now.root }
    requires feasible { IsFeasible network.now.root network.now.arcs.items }
    ensures search { IfOk result (λ search. IsSearch network.now search × (search.source ≡ source)) }
    ensures settled { IfOk result (λ search. All (Meets (reach_at search)) network.now.arcs.items) }
{
    let mut search = start(alloc, network, source)?;
    // some times meet all, so that none is late
    settle(&mut search, network)?;
    Ok(search)
}

// the steps by which a node was reached, first to last
fn trail(
    alloc: Global,
    search: &Search,
    target: u32,
    network: &Network,
) -> Result<Vec<usize>, AllocError>
    requires search { IsSearch network.now search.now }
    requires inside { target ≤ network.now.root }
    requires settled { All (Meets (reach_at search.now)) network.now.arcs.items }
    ensures leads { IfOk result (λ trail. Follows search.now.log.items 0 trail.items target) }
    ensures apart { IfOk result (λ trail. AreApart search.now.log.items 0 trail.items) }
    ensures steps { IfOk result (λ trail. All (λ j. (0 < j) × (j < length search.now.log.items)) trail.items) }
    ensures tight { IfOk result (λ trail. All (λ j. IsTight (reach_at search.now) (step_at search.now.log.items j).arc) trail.items) }
{
    let mut trail = Vec::new(alloc);
    let mut at = search.last[target as usize];
    'back: while at != 0 {
        trail.push(at)?;
        at = search.log[at].parent;
    }
    trail.reverse();
    Ok(trail)
}

// the inequalities that the steps of a trail follow
fn path_of(
    alloc: Global,
    steps: &[usize],
    log: &[Step],
    network: &Network,
) -> Result<List<(u32, bool)>, Memory>
    requires network { IsNetwork network.now }
    requires within { All (λ j. (j < length log.now) × ((step_at log.now j).place < length network.now.arcs.items)) steps.now }
    ensures { IfOk result (λ path. path ≡ map (λ j. step_of network.now (step_at log.now j).place) steps.now) }
{
    let mut path = List::new(alloc);
    'steps: for number in steps {
        let step = log[*number];
        path.push(network.step(step.place))?;
    }
    Ok(path)
}

/// A longest path: the places of inequalities, each gone along (true) or turned round (false); and times that meet all
/// inequalities, and with equality those of the path, the root's last.
#[derive(Drop)]
pub struct Longest {
    pub steps: List<(u32, bool)>,
    pub times: Vec<u8>,
}

/// A longest path between two nodes.
pub fn longest_path(
    alloc: Global,
    network: &Network,
    source: u32,
    target: u32,
) -> Result<Longest, Memory>
    requires network { IsNetwork network.now }
    requires ends { (source ≤ network.now.root) × (target ≤ network.now.root) }
    requires feasible { IsFeasible network.now.root network.now.arcs.items }
    ensures length { IfOk result (λ found. length found.times.items ≡ network.now.root + 1) }
    ensures longest { IfOk result (λ found. IsLongestPath network.now (slice_index found.times.items) source target found.steps) }
{
    let search = reached(alloc, network, source)?;
    let steps = trail(alloc, &search, target, network)?;
    let steps = path_of(alloc, steps.as_slice(), search.log.as_slice(), network)?;
    let times = times_of(alloc, &search, network.root)?;
    Ok(Longest { steps, times })
}

/// The least times that meet all inequalities, the root's last.
pub fn least_times(alloc: Global, network: &Network) -> Result<Vec<u8>, AllocError>
    requires framed { IsFramed network.now.root network.now.arcs.items }
    requires feasible { IsFeasible network.now.root network.now.arcs.items }
    ensures { IfOk result (λ times. AreLeast network.now.root network.now.arcs.items times.items) }
{
    let search = reached(alloc, network, network.root)?;
    let times = times_of(alloc, &search, network.root)?;
    Ok(times)
}
