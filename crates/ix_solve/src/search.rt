//! Longest walks over inequalities, kept as a log of steps.

ghost use Rattle.std.specs.Prelude.{◌≡◌, ◌≢◌, ℕ, ◌+◌, ◌<◌, ◌≤◌, ◌⊎◌, false, length, IfOk, IsTrue, slice_index, sum};
ghost use Rattle.ix_sheet.specs.Bounds.{Meets};
ghost use Rattle.ix_solve.specs.Search.{IsFramed, IsBegun, IsInside, IsLate, IsSearch, arc_at, reach_at};

use crate::network::Network;
use ix_sheet::Arc;
use std::alloc::{AllocError, Global};

/// The greatest time, and what walks begin with, so that none comes to less than 0.
pub const LIMIT: u32 = 255;

/// A walk that ends with `arc`, which stands at `place`. What it has before is the walk of the step `parent`.
#[derive(Clone, Copy, Debug, PartialEq, Eq)]
pub struct Step {
    pub arc: Arc,
    pub place: usize,
    pub parent: usize,
    pub reached: u32,
}

/// The longest walks found so far from one node: how far they reach at each node, the last step to it, and all steps.
#[derive(Drop)]
pub struct Search {
    pub source: u32,
    pub reach: Vec<u32>,
    pub last: Vec<usize>,
    pub log: Vec<Step>,
}

/// The first walks: `hub` is the step to the root, which reaches `at`.
#[derive(Drop)]
pub struct Begun {
    pub reach: Vec<u32>,
    pub last: Vec<usize>,
    pub log: Vec<Step>,
    pub hub: usize,
    pub at: u32,
}

// the walks to the source and, by its latest time, to the root
fn begin(alloc: Global, root: u32, source: u32, arcs: &[Arc]) -> Result<Begun, AllocError>
    requires framed { IsFramed root arcs.now }
    requires inside { source ≤ root }
    ensures { IfOk result (IsBegun root source arcs.now 0 0) }
{
    let mut log = Vec::new(alloc);
    let first = Arc {
        from: source,
        to: source,
        up: 0,
        down: 0,
    };
    log.push(Step {
        arc: first,
        place: 0,
        parent: 0,
        reached: LIMIT,
    })?;
    if source == root {
        return Ok(Begun {
            reach: Vec::new(alloc),
            last: Vec::new(alloc),
            log,
            hub: 0,
            at: LIMIT,
        });
    }
    let place = root as usize + source as usize;
    let back = arcs[place];
    let at = LIMIT - back.down;
    log.push(Step {
        arc: back,
        place,
        parent: 0,
        reached: at,
    })?;
    Ok(Begun {
        reach: Vec::new(alloc),
        last: Vec::new(alloc),
        log,
        hub: 1,
        at,
    })
}

// the walk to the next operation, by its first time
fn begin_next(
    begun: &mut Begun,
    node: u32,
    root: u32,
    source: u32,
    arcs: &[Arc],
) -> Result<(), AllocError>
    requires framed { IsFramed root arcs.now }
    requires begun { IsBegun root source arcs.now node 0 begun.old }
    requires inside { node < root }
    ensures { IfOk result (λ _. IsBegun root source arcs.now (node + 1) 0 begun.new) }
{
    if node == source {
        begun.reach.push(LIMIT)?;
        begun.last.push(0)?;
        return Ok(());
    }
    let arc = arcs[node as usize];
    let count = begun.log.len();
    let reached = begun.at + arc.up;
    begun.log.push(Step {
        arc,
        place: node as usize,
        parent: begun.hub,
        reached,
    })?;
    begun.reach.push(reached)?;
    begun.last.push(count)?;
    Ok(())
}

/// A walk from the source to each node.
pub fn start(alloc: Global, network: &Network, source: u32) -> Result<Search, AllocError>
    requires framed { IsFramed network.now.root network.now.arcs.items }
    requires inside { source ≤ network.now.root }
    ensures search { IfOk result (IsSearch network.now) }
    ensures source { IfOk result (λ search. search.source ≡ source) }
{
    let root = network.root;
    let arcs = network.arcs.as_slice();
    let mut begun = begin(alloc, root, source, arcs)?;
    for node in 0..root {
        begin_next(&mut begun, node, root, source, arcs)?;
    }
    let Begun {
        mut reach,
        mut last,
        log,
        hub,
        at,
    } = begun;
    reach.push(at)?;
    last.push(hub)?;
    Ok(Search {
        source,
        reach,
        last,
        log,
    })
}

/// Whether the walks meet an arc.
pub fn is_met(search: &Search, arc: Arc, root: u32) -> bool
    requires len { length search.now.reach.items ≡ root + 1 }
    requires inside { IsInside root arc }
    ensures met { IsTrue result → Meets (reach_at search.now) arc }
    ensures unmet { result ≡ false → reach_at search.now arc.to + arc.down < reach_at search.now arc.from + arc.up }
{
    let from = search.reach[arc.from as usize] as u64 + arc.up as u64;
    let to = search.reach[arc.to as usize] as u64 + arc.down as u64;
    from <= to
}

/// Whether following an arc passes what any walk can come to, or comes back to the source.
pub fn is_late(search: &Search, arc: Arc, root: u32) -> bool
    requires len { length search.now.reach.items ≡ root + 1 }
    requires inside { IsInside root arc }
    ensures late { IsTrue result → IsLate search.now arc }
    ensures source { result ≡ false → arc.to ≢ search.now.source }
    ensures fits { result ≡ false → reach_at search.now arc.from + arc.up ≤ LIMIT + LIMIT + arc.down }
{
    if arc.to == search.source {
        return true;
    }
    let from = search.reach[arc.from as usize] as u64 + arc.up as u64;
    from > LIMIT as u64 + LIMIT as u64 + arc.down as u64
}

/// Follows one more arc, whose end it raises.
pub fn raise(search: &mut Search, network: &Network, place: usize) -> Result<(), AllocError>
    requires search { IsSearch network.now search.old }
    requires within { place < length network.now.arcs.items }
    requires inside { IsInside network.now.root (arc_at network.now.arcs.items place) }
    requires not_source { (arc_at network.now.arcs.items place).to ≢ search.old.source }
    requires unmet { reach_at search.old (arc_at network.now.arcs.items place).to + (arc_at network.now.arcs.items place).down < reach_at search.old (arc_at network.now.arcs.items place).from + (arc_at network.now.arcs.items place).up }
    requires fits { reach_at search.old (arc_at network.now.arcs.items place).from + (arc_at network.now.arcs.items place).up ≤ LIMIT + LIMIT + (arc_at network.now.arcs.items place).down }
    ensures search { IfOk result (λ _. IsSearch network.now search.new) }
    ensures source { IfOk result (λ _. search.new.source ≡ search.old.source) }
    ensures more { IfOk result (λ _. sum search.old.reach.items < sum search.new.reach.items) }
{
    let arc = network.arcs[place];
    let reached = (search.reach[arc.from as usize] as u64 + arc.up as u64 - arc.down as u64) as u32;
    let parent = search.last[arc.from as usize];
    let count = search.log.len();
    search.log.push(Step {
        arc,
        place,
        parent,
        reached,
    })?;
    search.reach[arc.to as usize] = reached;
    search.last[arc.to as usize] = count;
    Ok(())
}

/// How far the walks reach above the root.
pub fn times_of(alloc: Global, search: &Search, root: u32) -> Result<Vec<u8>, AllocError>
    requires len { length search.now.reach.items ≡ root + 1 }
    requires above { (v : ℕ) → v ≤ root → (reach_at search.now root ≤ reach_at search.now v) × (reach_at search.now v ≤ reach_at search.now root + LIMIT) }
    ensures { IfOk result (λ times. (length times.items ≡ root + 1) × ((v : ℕ) → v ≤ root → slice_index times.items v + reach_at search.now root ≡ reach_at search.now v)) }
{
    let base = search.reach[root as usize];
    let mut times = Vec::new(alloc);
    'reaches: for reach in &search.reach {
        times.push((*reach - base) as u8)?;
    }
    Ok(times)
}
