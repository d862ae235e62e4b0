//! Trees of steps that times meet with equality, so that each way along them is a longest one.

ghost use Rattle.std.specs.Prelude.{◌≡◌, ◌+◌, ◌<◌, ◌≤◌, ◌^◌, Some, length, IfOk, IfSome, IsTrue, All, slice_index};
ghost use Rattle.ix_sheet.specs.Bounds.{IsTight};
ghost use Rattle.ix_solve.specs.Networks.{IsNetwork, IsTightPath};
ghost use Rattle.ix_solve.specs.Forests.{AreEntries, AreTouching, IsForest, IsOnward, entry_at};

use crate::network::Network;
use ix_bits::{List, Memory};
use ix_sheet::Arc;
use std::alloc::{AllocError, Global};

/// A node that is reached, the entry before it, and the step between: the place of an inequality, and whether it is gone along.
#[derive(Clone, Copy, Debug, PartialEq, Eq)]
pub struct Branch {
    pub node: u32,
    pub parent: usize,
    pub place: u32,
    pub along: bool,
}

/// Trees, as a log of entries, each a node. Trees begin with the first entries, so many as `roots` says, to which no step leads.
#[derive(Drop)]
pub struct Forest {
    pub roots: usize,
    pub log: Vec<Branch>,
    /// The entry of each node that is reached.
    pub entries: Vec<Option<usize>>,
}

/// The steps from a node where a tree begins.
#[derive(Drop)]
pub struct Walk {
    pub source: u32,
    pub steps: List<(u32, bool)>,
}

// trees that begin at the nodes that have to spare, and have not grown yet
fn begin(alloc: Global, left: &[i64]) -> Result<Forest, AllocError>
    requires { length left.now ≤ 2 ^ 32 }
    ensures entries { IfOk result (λ forest. AreEntries (length left.now) forest.log.items forest.entries.items) }
    ensures roots { IfOk result (λ forest. forest.roots ≡ length forest.log.items) }
{
    let mut log = Vec::new(alloc);
    let mut entries = Vec::new(alloc);
    'nodes: for node in 0..left.len() {
        if left[node] < 0 {
            entries.push(Some(log.len()))?;
            log.push(Branch {
                node: node as u32,
                parent: 0,
                place: 0,
                along: true,
            })?;
        } else {
            entries.push(None)?;
        }
    }
    Ok(Forest {
        roots: log.len(),
        log,
        entries,
    })
}

fn is_tight(times: &[u8], arc: Arc) -> bool
    requires { (arc.from < length times.now) × (arc.to < length times.now) }
    ensures { IsTrue result → IsTight (slice_index times.now) arc }
{
    let from = times[arc.from as usize] as u64 + arc.up as u64;
    let to = times[arc.to as usize] as u64 + arc.down as u64;
    from == to
}

// the node to which an inequality leads from a node, and whether it is gone along; against only where it carries an amount
fn onward(arc: Arc, node: u32, amount: u64) -> Option<(u32, bool)>
    ensures { IfSome result (IsOnward arc node) }
{
    if arc.from == node {
        return Some((arc.to, true));
    }
    if arc.to == node && amount > 0 {
        return Some((arc.from, false));
    }
    None
}

// goes on from an entry by the inequality at a place, where that is tight and leads to a node that is not reached
fn grow(
    forest: &mut Forest,
    number: usize,
    place: u32,
    network: &Network,
    times: &[u8],
    amounts: &[u64],
) -> Result<(), AllocError>
    requires network { IsNetwork network.now }
    requires forest { IsForest network.now (slice_index times.now) forest.old }
    requires number { number < length forest.old.log.items }
    requires place { place < network.now.bounds }
    requires times { length times.now ≡ network.now.root + 1 }
    requires amounts { length amounts.now ≡ network.now.bounds }
    ensures forest { IfOk result (λ _. IsForest network.now (slice_index times.now) forest.new) }
    ensures more { IfOk result (λ _. length forest.old.log.items ≤ length forest.new.log.items) }
{
    let arc = network.arcs[place as usize];
    if !is_tight(times, arc) {
        return Ok(());
    }
    let Some((node, along)) = onward(arc, forest.log[number].node, amounts[place as usize]) else {
        return Ok(());
    };
    if forest.entries[node as usize].is_some() {
        return Ok(());
    }
    let count = forest.log.len();
    forest.log.push(Branch {
        node,
        parent: number,
        place,
        along,
    })?;
    forest.entries[node as usize] = Some(count);
    Ok(())
}

// goes on from an entry by each of these inequalities
fn grow_from(
    forest: &mut Forest,
    number: usize,
    places: &[u32],
    network: &Network,
    times: &[u8],
    amounts: &[u64],
) -> Result<(), AllocError>
    requires network { IsNetwork network.now }
    requires forest { IsForest network.now (slice_index times.now) forest.old }
    requires number { number < length forest.old.log.items }
    requires places { All (λ k. k < network.now.bounds) places.now }
    requires times { length times.now ≡ network.now.root + 1 }
    requires amounts { length amounts.now ≡ network.now.bounds }
    ensures { IfOk result (λ _. IsForest network.now (slice_index times.now) forest.new) }
{
    'places: for place in places {
        grow(forest, number, *place, network, times, amounts)?;
    }
    Ok(())
}

/// Trees of steps that the times meet with equality, from the nodes that have to spare, over the inequalities and, turned
/// round, those that carry an amount.
pub fn grown(
    alloc: Global,
    network: &Network,
    touching: &[List<u32>],
    times: &[u8],
    left: &[i64],
    amounts: &[u64],
) -> Result<Forest, AllocError>
    requires network { IsNetwork network.now }
    requires touching { AreTouching network.now.root network.now.bounds touching.now }
    requires times { length times.now ≡ network.now.root + 1 }
    requires left { length left.now ≡ network.now.root + 1 }
    requires amounts { length amounts.now ≡ network.now.bounds }
    ensures { IfOk result (IsForest network.now (slice_index times.now)) }
{
    let mut forest = begin(alloc, left)?;
    'entries: for number in 0..left.len() {
        if number < forest.log.len() {
            let node = forest.log[number].node;
            let places = touching[node as usize].as_slice();
            grow_from(&mut forest, number, places, network, times, amounts)?;
        }
    }
    Ok(forest)
}

// the way to an entry from where its tree begins
fn way_to(
    alloc: Global,
    forest: &Forest,
    target: usize,
    entry: usize,
    network: &Network,
    times: &[u8],
) -> Result<Walk, AllocError>
    requires forest { IsForest network.now (slice_index times.now) forest.now }
    requires entry { entry_at forest.now.entries.items target ≡ Some entry }
    ensures path { IfOk result (λ walk. IsTightPath network.now.arcs.items network.now.bounds (slice_index times.now) walk.source target walk.steps) }
    ensures source { IfOk result (λ walk. walk.source ≤ network.now.root) }
{
    let mut steps = Vec::new(alloc);
    let mut at = entry;
    'back: while at >= forest.roots {
        let branch = forest.log[at];
        steps.push((branch.place, branch.along))?;
        at = branch.parent;
    }
    steps.reverse();
    Ok(Walk {
        source: forest.log[at].node,
        steps: List::from_vec(steps),
    })
}

/// The way to a node from where its tree begins, if the node is reached.
pub fn way(
    alloc: Global,
    forest: &Forest,
    target: usize,
    network: &Network,
    times: &[u8],
) -> Result<Option<Walk>, AllocError>
    requires forest { IsForest network.now (slice_index times.now) forest.now }
    requires target { target ≤ network.now.root }
    ensures path { IfOk result (λ found. IfSome found (λ walk. IsTightPath network.now.arcs.items network.now.bounds (slice_index times.now) walk.source target walk.steps)) }
    ensures source { IfOk result (λ found. IfSome found (λ walk. walk.source ≤ network.now.root)) }
{
    let Some(entry) = forest.entries[target] else {
        return Ok(None);
    };
    Ok(Some(way_to(alloc, forest, target, entry, network, times)?))
}
