ghost use Rattle.std.specs.Prelude.{◌≡◌, [], ◌∷◌, codes, IfOk};
ghost use Rattle.ix_cert.specs.Items.{IsItem, item_words};
ghost use Rattle.ix_lines.specs.Readings.{IsReading, texts};

use crate::fields::{bound, operation, two};
use crate::item::Item;
use crate::word::{is_name, mode, name};
use ix_bits::Memory;
use ix_lines::{counted, is_end, is_label, labelled, parted};
use std::alloc::Global;

/// The least amount of a bound in a flow.
const LEAST_AMOUNT: u64 = 1;

fn title(words: &[&[u8]]) -> Option<Item>
    ensures { IsReading IsItem item_words (codes "longnail" ∷ texts words.now) result }
{
    let Some((version, rest)) = labelled(words, b"report", 2) else {
        return None;
    };
    if version == 0 {
        return None;
    }
    if is_end(rest) {
        Some(Item::Title(version as u8))
    } else {
        None
    }
}

fn period(words: &[&[u8]]) -> Option<Item>
    ensures { IsReading IsItem item_words (codes "period" ∷ texts words.now) result }
{
    let Some((period, rest)) = counted(words, 1_000_000) else {
        return None;
    };
    if period == 0 {
        return None;
    }
    if is_end(rest) {
        Some(Item::Period(period as u32))
    } else {
        None
    }
}

/// A name and a mode.
fn behaviour(alloc: Global, words: &[&[u8]]) -> Result<Option<Item>, Memory>
    ensures { IfOk result (λ found. IsReading IsItem item_words (codes "behaviour" ∷ texts words.now) found) }
{
    let Some((first, behind_first)) = parted(words) else {
        return Ok(None);
    };
    let Some((second, rest)) = parted(behind_first) else {
        return Ok(None);
    };
    let Some(mode) = mode(second) else {
        return Ok(None);
    };
    if !is_name(first) || !is_end(rest) {
        return Ok(None);
    }
    Ok(Some(Item::Behaviour(name(alloc, first)?, mode)))
}

fn op(alloc: Global, words: &[&[u8]]) -> Result<Option<Item>, Memory>
    ensures { IfOk result (λ found. IsReading IsItem item_words (codes "op" ∷ texts words.now) found) }
{
    match operation(alloc, words)? {
        Some(op) => Ok(Some(Item::Op(op))),
        None => Ok(None),
    }
}

fn edge(words: &[&[u8]]) -> Option<Item>
    ensures { IsReading IsItem item_words (codes "edge" ∷ texts words.now) result }
{
    match two(words) {
        Some((from, to)) => Some(Item::Edge(from, to)),
        None => None,
    }
}

fn cost(words: &[&[u8]]) -> Option<Item>
    ensures { IsReading IsItem item_words (codes "cost" ∷ texts words.now) result }
{
    let Some((cost, rest)) = counted(words, u64::MAX) else {
        return None;
    };
    if is_end(rest) {
        Some(Item::Cost(cost))
    } else {
        None
    }
}

/// An amount above 0, and a bound.
fn flow(alloc: Global, words: &[&[u8]]) -> Result<Option<Item>, Memory>
    ensures { IfOk result (λ found. IsReading IsItem item_words (codes "flow" ∷ texts words.now) found) }
{
    let Some((amount, rest)) = counted(words, u64::MAX) else {
        return Ok(None);
    };
    if amount < LEAST_AMOUNT {
        return Ok(None);
    }
    match bound(alloc, rest)? {
        Some(bound) => Ok(Some(Item::Flow(amount, bound))),
        None => Ok(None),
    }
}

fn cycle(alloc: Global, words: &[&[u8]]) -> Result<Option<Item>, Memory>
    ensures { IfOk result (λ found. IsReading IsItem item_words (codes "cycle" ∷ texts words.now) found) }
{
    match bound(alloc, words)? {
        Some(bound) => Ok(Some(Item::Cycle(bound))),
        None => Ok(None),
    }
}

fn end(words: &[&[u8]]) -> Option<Item>
    ensures { IsReading IsItem item_words (codes "end" ∷ texts words.now) result }
{
    if is_end(words) { Some(Item::End) } else { None }
}

/// What the words of a line say, if they are those of a line of a report.
pub fn item_of(alloc: Global, words: &[&[u8]]) -> Result<Option<Item>, Memory>
    ensures { IfOk result (λ found. IsReading IsItem item_words (texts words.now) found) }
{
    let Some((label, rest)) = parted(words) else {
        return Ok(None);
    };
    if is_label(label, b"op") {
        return op(alloc, rest);
    }
    if is_label(label, b"edge") {
        return Ok(edge(rest));
    }
    if is_label(label, b"flow") {
        return flow(alloc, rest);
    }
    if is_label(label, b"cycle") {
        return cycle(alloc, rest);
    }
    if is_label(label, b"cost") {
        return Ok(cost(rest));
    }
    if is_label(label, b"end") {
        return Ok(end(rest));
    }
    if is_label(label, b"behaviour") {
        return behaviour(alloc, rest);
    }
    if is_label(label, b"period") {
        return Ok(period(rest));
    }
    if is_label(label, b"longnail") {
        return Ok(title(rest));
    }
    Ok(None)
}
