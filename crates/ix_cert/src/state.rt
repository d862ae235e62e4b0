ghost use Rattle.std.specs.Prelude.{◌≡◌, ℕ, ◌≤◌, [], length, IfOk, OnOk};
ghost use Rattle.ix_cert.specs.Layout.{is_weighted as specified_is_weighted, IsBoundInForm};
ghost use Rattle.ix_cert.specs.Items.{IsBound, IsItem};
ghost use Rattle.ix_lines.specs.Readings.{Tells};
ghost use Rattle.ix_cert.specs.Steps.{IsTimed, IsBehind, last_edge, MayBeOp, MayBeEdge, MayStand, MayFollow, begun as specified_begun, with_op, inside, after_at, after as specified_after};
ghost use Rattle.ix_cert.specs.declared.state.Place.TheVariants as at;

use crate::item::{Item, Operation};
use crate::report::ReportBlock;
use ix_bits::{List, Memory, Name};
use ix_graph::Mode;
use ix_sheet::{Bound, Problem};
use std::alloc::Global;

/// Where a report goes on: at its title, at its period, at a behaviour, or inside of one whose cost may have been told.
#[derive(Drop)]
pub enum Place {
    Title,
    Period,
    Between,
    Inside(ReportBlock, bool),
}

/// The lines of a report that were read.
#[derive(Drop)]
pub struct Reading {
    /// The version, where the title was read.
    pub version: u8,
    pub period: u32,
    /// The behaviours that have ended.
    pub blocks: List<ReportBlock>,
    pub place: Place,
}

/// Whether a report of this version tells weights.
pub fn is_weighted(version: u8) -> bool
    ensures { result ≡ specified_is_weighted version }
{
    version == 2
}

fn is_bound(count: usize, bound: &Bound) -> bool
    requires { IsBound bound.now }
    ensures { Tells result (IsBoundInForm count bound.now) }
{
    match bound {
        Bound::Early(op) | Bound::Late(op) => (*op as usize) < count,
        Bound::Dep(from, to) => (*from as usize) < count && (*to as usize) < count,
        Bound::Chain(path) => path.as_slice().iter().all(|op| (*op as usize) < count),
    }
}

fn is_timed(mode: Option<Mode>, time: Option<u8>) -> bool
    ensures { Tells result (IsTimed mode time) }
{
    mode.is_some() == time.is_some()
}

fn may_be_op(version: u8, block: &ReportBlock, costed: bool, op: &Operation) -> bool
    ensures { Tells result (MayBeOp version block.now costed op.now) }
{
    !costed
        && op.weighted == is_weighted(version)
        && op.place as usize == block.problem.ops.len()
        && block.problem.edges.is_empty()
        && block.cycle.is_empty()
        && is_timed(block.mode, op.time)
}

/// Whether an edge stands behind the last one, by its end and then by its start.
fn is_behind(edges: &[(u32, u32)], from: u32, to: u32) -> bool
    ensures { Tells result (IsBehind (last_edge edges.now) (from, to)) }
{
    match edges.last() {
        Some((last_from, last_to)) => { *last_to < to || (*last_to == to && *last_from < from) }
        None => true,
    }
}

fn may_be_edge(block: &ReportBlock, costed: bool, from: u32, to: u32) -> bool
    ensures { Tells result (MayBeEdge block.now costed (from, to)) }
{
    !costed
        && block.cycle.is_empty()
        && from < to
        && (to as usize) < block.problem.ops.len()
        && is_behind(block.problem.edges.as_slice(), from, to)
}

fn may_stand(version: u8, block: &ReportBlock, costed: bool, item: &Item) -> bool
    requires { IsItem item.now }
    ensures { Tells result (MayStand version block.now costed item.now) }
{
    let count = block.problem.ops.len();
    match item {
        Item::Op(op) => may_be_op(version, block, costed, op),
        Item::Edge(from, to) => may_be_edge(block, costed, *from, *to),
        Item::Cost(_) => !costed && block.mode.is_some(),
        Item::Flow(_, bound) => costed && is_bound(count, bound),
        Item::Cycle(bound) => block.mode.is_none() && is_bound(count, bound),
        Item::End => costed || !block.cycle.is_empty(),
        Item::Title(_) | Item::Period(_) | Item::Behaviour(_, _) => false,
    }
}

/// Whether a line may stand next, behind a title of this version.
pub fn may_follow(version: u8, place: &Place, item: &Item) -> bool
    requires { IsItem item.now }
    ensures { Tells result (MayFollow version place.now item.now) }
{
    match place {
        Place::Title => matches!(item, Item::Title(_)),
        Place::Period => matches!(item, Item::Period(_)),
        Place::Between => matches!(item, Item::Behaviour(_, _)),
        Place::Inside(block, costed) => may_stand(version, block, *costed, item),
    }
}

fn begun(alloc: Global, name: Name, mode: Option<Mode>, period: u32) -> ReportBlock
    ensures { result ≡ specified_begun name mode period }
{
    ReportBlock {
        name,
        mode,
        kinds: List::new(alloc),
        problem: Problem {
            ops: List::new(alloc),
            edges: List::new(alloc),
            period,
        },
        times: List::new(alloc),
        cost: 0,
        flow: List::new(alloc),
        cycle: List::new(alloc),
    }
}

/// Puts an operation behind those of the block.
fn put_op(block: &mut ReportBlock, op: Operation) -> Result<(), Memory>
    ensures { OnOk result (block.new ≡ with_op block.old op) }
{
    let Ok(()) = block.kinds.push(op.kind) else {
        return Err(Memory);
    };
    let Ok(()) = block.problem.ops.push(op.node) else {
        return Err(Memory);
    };
    match op.time {
        Some(time) => block.times.push(time),
        None => Ok(()),
    }
}

/// Puts into the block what a line inside of it says; `costed` is whether its cost is told.
fn put_item(block: &mut ReportBlock, costed: &mut bool, item: Item) -> Result<(), Memory>
    ensures { OnOk result (at.Inside block.new costed.new ≡ inside block.old costed.old item) }
{
    match item {
        Item::Op(op) => put_op(block, op),
        Item::Edge(from, to) => block.problem.edges.push((from, to)),
        Item::Cost(cost) => {
            block.cost = cost;
            *costed = true;
            Ok(())
        }
        Item::Flow(amount, bound) => block.flow.push((bound, amount)),
        Item::Cycle(bound) => block.cycle.push(bound),
        other => {
            drop(other);
            Ok(())
        }
    }
}

/// What was read with one more line, where a behaviour goes on.
fn after_inside(
    version: u8,
    period: u32,
    blocks: List<ReportBlock>,
    block: ReportBlock,
    costed: bool,
    item: Item,
) -> Result<Reading, Memory>
    ensures { IfOk result (λ more. more ≡ after_at version period blocks (at.Inside block costed) item) }
{
    let mut blocks = blocks;
    let mut block = block;
    let mut costed = costed;
    if let Item::End = item {
        let Ok(()) = blocks.push(block) else {
            drop(blocks);
            return Err(Memory);
        };
        return Ok(Reading {
            version,
            period,
            blocks,
            place: Place::Between,
        });
    }
    let Ok(()) = put_item(&mut block, &mut costed, item) else {
        drop(blocks);
        drop(block);
        return Err(Memory);
    };
    Ok(Reading {
        version,
        period,
        blocks,
        place: Place::Inside(block, costed),
    })
}

/// What was read with the first line.
fn after_start(version: u8, period: u32, blocks: List<ReportBlock>, item: Item) -> Reading
    ensures { result ≡ after_at version period blocks at.Title item }
{
    match item {
        Item::Title(version) => Reading {
            version,
            period,
            blocks,
            place: Place::Period,
        },
        other => {
            drop(other);
            Reading {
                version,
                period,
                blocks,
                place: Place::Period,
            }
        }
    }
}

/// What was read with one more line, which is behind the title.
fn after_title(version: u8, period: u32, blocks: List<ReportBlock>, item: Item) -> Reading
    ensures { result ≡ after_at version period blocks at.Period item }
{
    match item {
        Item::Period(period) => Reading {
            version,
            period,
            blocks,
            place: Place::Between,
        },
        other => {
            drop(other);
            Reading {
                version,
                period,
                blocks,
                place: Place::Period,
            }
        }
    }
}

/// What was read with one more line, where a behaviour may begin.
fn after_end(
    alloc: Global,
    version: u8,
    period: u32,
    blocks: List<ReportBlock>,
    item: Item,
) -> Reading
    ensures { result ≡ after_at version period blocks at.Between item }
{
    match item {
        Item::Behaviour(name, mode) => Reading {
            version,
            period,
            blocks,
            place: Place::Inside(begun(alloc, name, mode, period), false),
        },
        other => {
            drop(other);
            Reading {
                version,
                period,
                blocks,
                place: Place::Between,
            }
        }
    }
}

/// What was read with one more line, which may stand next.
pub fn after(alloc: Global, reading: Reading, item: Item) -> Result<Reading, Memory>
    ensures { IfOk result (λ more. more ≡ specified_after reading item) }
{
    let Reading {
        version,
        period,
        blocks,
        place,
    } = reading;
    match place {
        Place::Title => Ok(after_start(version, period, blocks, item)),
        Place::Period => Ok(after_title(version, period, blocks, item)),
        Place::Between => Ok(after_end(alloc, version, period, blocks, item)),
        Place::Inside(block, costed) => after_inside(version, period, blocks, block, costed, item),
    }
}
