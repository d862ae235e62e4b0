ghost use Rattle.std.specs.Prelude.{◌≡◌, ℕ, ◌≤◌, [], ◌∷◌, map, decimal, codes, All, IfOk};
ghost use Rattle.ix_cert.specs.Items.{IsWidthRead, IsWeightRead, IsNodeRead, IsTime, IsWide, AreWide, IsBound, IsItem, IsOperation, time_words, op_words, bound_words, item_words, pair_words};
ghost use Rattle.ix_lines.specs.Readings.{IsReading, IsParted, IsCounted, IsLabelled, Tells, texts};

use crate::item::{Item, Operation};
use crate::word::{is_kind, name};
use ix_bits::{List, Memory};
use ix_lines::{counted, is_end, is_label, labelled, number, parted};
use ix_sheet::{Bound, Node};
use std::alloc::Global;

/// The greatest number of an operation that a bound or an edge can tell.
const MOST: u64 = 0xffff_ffff;

/// The weight behind `width`, from 1 to 128, and the words behind it.
fn width<'a, 'b>(words: &'a [&'b [u8]]) -> Option<(u8, &'a [&'b [u8]])>
    ensures { IsWidthRead (texts words.now) result }
{
    let Some((weight, rest)) = labelled(words, b"width", 128) else {
        return None;
    };
    if weight == 0 {
        return None;
    }
    Some((weight as u8, rest))
}

/// Whether a weight is told, the weight, and the words behind it.
fn weight<'a, 'b>(words: &'a [&'b [u8]]) -> (bool, u8, &'a [&'b [u8]])
    ensures { IsWeightRead (texts words.now) result }
{
    match width(words) {
        Some((weight, rest)) => (true, weight, rest),
        None => (false, 1, words),
    }
}

/// The numbers of an operation, whether its weight is told, and the words behind them.
fn node<'a, 'b>(words: &'a [&'b [u8]]) -> Option<(bool, Node, &'a [&'b [u8]])>
    ensures { IsNodeRead (texts words.now) result }
{
    let Some((delay, behind_delay)) = labelled(words, b"delay", 1_000_000) else {
        return None;
    };
    let Some((latency, behind_latency)) = labelled(behind_delay, b"latency", 255) else {
        return None;
    };
    let (weighted, weight, behind_weight) = weight(behind_latency);
    let Some((early, behind_early)) = labelled(behind_weight, b"early", 255) else {
        return None;
    };
    let Some((late, rest)) = labelled(behind_early, b"late", 255) else {
        return None;
    };
    let node = Node {
        delay: delay as u32,
        latency: latency as u8,
        weight,
        early: early as u8,
        late: late as u8,
    };
    Some((weighted, node, rest))
}

/// The time at the end of an operation's line, if it has one there.
fn time(words: &[&[u8]]) -> Option<Option<u8>>
    ensures { IsReading IsTime time_words (texts words.now) result }
{
    if is_end(words) {
        return Some(None);
    }
    let Some((time, rest)) = labelled(words, b"time", 255) else {
        return None;
    };
    if is_end(rest) {
        Some(Some(time as u8))
    } else {
        None
    }
}

/// An operation by the words behind `op`.
pub fn operation(alloc: Global, words: &[&[u8]]) -> Result<Option<Operation>, Memory>
    ensures { IfOk result (λ found. IsReading IsOperation op_words (texts words.now) found) }
{
    let Some((place, behind_place)) = counted(words, 65_535) else {
        return Ok(None);
    };
    let Some((kind, behind_kind)) = parted(behind_place) else {
        return Ok(None);
    };
    if !is_kind(kind) {
        return Ok(None);
    }
    let Some((weighted, node, rest)) = node(behind_kind) else {
        return Ok(None);
    };
    let Some(time) = time(rest) else {
        return Ok(None);
    };
    Ok(Some(Operation {
        weighted,
        place: place as u32,
        kind: name(alloc, kind)?,
        node,
        time,
    }))
}

/// The numbers that words are.
fn path(alloc: Global, words: &[&[u8]]) -> Result<Option<List<u32>>, Memory>
    ensures { IfOk result (λ found. IsReading (All IsWide) (map decimal) (texts words.now) found) }
{
    let mut path = List::new(alloc);
    for word in words {
        match number(*word, MOST) {
            Some(number) => {
                let Ok(()) = path.push(number as u32) else {
                    drop(path);
                    return Err(Memory);
                };
            }
            None => {
                drop(path);
                return Ok(None);
            }
        }
    }
    Ok(Some(path))
}

/// The one number that words are.
fn one(words: &[&[u8]]) -> Option<u32>
    ensures { IsReading IsWide (λ n. decimal n ∷ []) (texts words.now) result }
{
    let Some((number, rest)) = counted(words, MOST) else {
        return None;
    };
    if is_end(rest) {
        Some(number as u32)
    } else {
        None
    }
}

/// The two numbers that words are.
pub fn two(words: &[&[u8]]) -> Option<(u32, u32)>
    ensures { IsReading AreWide pair_words (texts words.now) result }
{
    let Some((first, rest)) = counted(words, MOST) else {
        return None;
    };
    match one(rest) {
        Some(second) => Some((first as u32, second)),
        None => None,
    }
}

/// The bound that words are.
pub fn bound(alloc: Global, words: &[&[u8]]) -> Result<Option<Bound>, Memory>
    ensures { IfOk result (λ found. IsReading IsBound bound_words (texts words.now) found) }
{
    let Some((label, rest)) = parted(words) else {
        return Ok(None);
    };
    if is_label(label, b"early") {
        return Ok(early(rest));
    }
    if is_label(label, b"late") {
        return Ok(late(rest));
    }
    if is_label(label, b"dep") {
        return Ok(dep(rest));
    }
    if is_label(label, b"chain") {
        return chain(alloc, rest);
    }
    Ok(None)
}

fn early(words: &[&[u8]]) -> Option<Bound>
    ensures { IsReading IsBound bound_words (codes "early" ∷ texts words.now) result }
{
    match one(words) {
        Some(op) => Some(Bound::Early(op)),
        None => None,
    }
}

fn late(words: &[&[u8]]) -> Option<Bound>
    ensures { IsReading IsBound bound_words (codes "late" ∷ texts words.now) result }
{
    match one(words) {
        Some(op) => Some(Bound::Late(op)),
        None => None,
    }
}

fn dep(words: &[&[u8]]) -> Option<Bound>
    ensures { IsReading IsBound bound_words (codes "dep" ∷ texts words.now) result }
{
    match two(words) {
        Some((from, to)) => Some(Bound::Dep(from, to)),
        None => None,
    }
}

fn chain(alloc: Global, words: &[&[u8]]) -> Result<Option<Bound>, Memory>
    ensures { IfOk result (λ found. IsReading IsBound bound_words (codes "chain" ∷ texts words.now) found) }
{
    if is_end(words) {
        return Ok(None);
    }
    match path(alloc, words)? {
        Some(path) => Ok(Some(Bound::Chain(path))),
        None => Ok(None),
    }
}
