ghost use Rattle.std.specs.Prelude.{◌≡◌, ℕ, ◌+◌, ◌-◌, ◌≤◌, ◌%◌, ◌^◌, List, [], ◌∷◌, Some, option_map, IfOk, OnOk};
ghost use Rattle.ix_bits.specs.declared.number.Bits.{Bits};
ghost use Rattle.ix_tree.specs.Lexing.{same_bytes};
ghost use Rattle.ix_mean.specs.ByName.{stands_at_15};
ghost use Rattle.ix_mean.specs.Resolving.{with_zeros};
ghost use Rattle.ix_mean.specs.View.{view_expression};
ghost use Rattle.ix_slots.specs.Made.{put_part, parts_of, top_of_parts, put_behind, made_part, with_part, made_from, made_field};

use crate::types::{joined, type_near, type_of};
use ix_bits::{BinOp, Bits, Memory, Name, Ty};
use ix_graph::Kind;
use ix_mean::ResolvedExpr;
use ix_tree::Piece;
use std::alloc::Global;

/// Bits `hi` down to `lo` of a field stand in the word with their lowest at bit `at`.
#[derive(Clone, Copy)]
pub(crate) struct Part {
    pub hi: u8,
    pub lo: u8,
    pub at: u8,
}

/// A pattern of zeros.
pub(crate) fn zeros(ty: Ty) -> Bits
    ensures { result.raw ≡ 0 }
{
    Bits {
        raw: 0,
        width: ty.width,
    }
}

// The greatest pattern of a width.
fn mask(width: u8) -> u128
    requires some { 1 ≤ width }
    requires most { width ≤ 128 }
    ensures { result ≡ 2 ^ width - 1 }
{
    u128::MAX >> (128 - width)
}

/// A pattern cut to the width of a type, with zeros above it where it is narrower.
pub(crate) fn cut(ty: Ty, bits: Bits) -> Bits
    ensures { result.raw ≡ bits.raw % 2 ^ ty.width }
{
    Bits {
        raw: bits.raw & mask(ty.width),
        width: ty.width,
    }
}

fn is_same(a: &Name, b: &str) -> bool
    ensures { result ≡ same_bytes a.now b.now }
{
    a.as_str() == b
}

/// Whether the first piece of the field stands with its bit 0 at place 15 of the word.
pub(crate) fn stands_at_15(pieces: &[Piece], name: &str) -> bool
    ensures { result ≡ stands_at_15 pieces.now name.now }
{
    let mut left = pieces;
    while let Some((piece, rest)) = left.split_first() {
        if is_same(&piece.field, name) {
            return u16::from(piece.at) == 15 + u16::from(piece.lo);
        }
        left = rest;
    }
    false
}

// Puts a part among parts that are ordered from the highest down.
fn insert(parts: &mut Vec<Part>, part: Part) -> Result<(), Memory>
    ensures { OnOk result (parts.new.items ≡ put_part part parts.old.items) }
{
    let mut place = 0;
    while place < parts.len() && parts[place].hi >= part.hi {
        place += 1;
    }
    match parts.insert(place, part) {
        Ok(()) => Ok(()),
        Err(_) => Err(Memory),
    }
}

// The parts of a field, from the highest down.
fn parts_of(alloc: Global, pieces: &[Piece], name: &str) -> Result<Vec<Part>, Memory>
    ensures { IfOk result (λ parts. parts.items ≡ parts_of pieces.now name.now) }
{
    match pieces.split_first() {
        None => Ok(Vec::new(alloc)),
        Some((piece, rest)) => {
            let mut parts = parts_of(alloc, rest, name)?;
            if is_same(&piece.field, name) {
                let part = Part {
                    hi: piece.hi,
                    lo: piece.lo,
                    at: piece.at,
                };
                insert(&mut parts, part)?;
            }
            Ok(parts)
        }
    }
}

// An expression in front of another, if there is one in front.
fn put_behind(
    alloc: Global,
    front: Option<ResolvedExpr>,
    e: ResolvedExpr,
) -> Result<ResolvedExpr, Memory>
    ensures { (tables : List (List Bits)) → IfOk result (λ r. view_expression tables r ≡ put_behind (option_map (view_expression tables) front) (view_expression tables e)) }
{
    match front {
        None => Ok(e),
        Some(front) => {
            let ty = joined(BinOp::Concat, type_of(&front), type_of(&e));
            let front = Box::new(alloc, front)?;
            let e = Box::new(alloc, e)?;
            Ok(ResolvedExpr::Two(BinOp::Concat, ty, front, e))
        }
    }
}

// Zeros for so many bits behind what stands in front.
fn with_zeros(
    alloc: Global,
    front: Option<ResolvedExpr>,
    count: u16,
) -> Result<Option<ResolvedExpr>, Memory>
    ensures { (tables : List (List Bits)) → IfOk result (λ r. option_map (view_expression tables) r ≡ with_zeros (option_map (view_expression tables) front) count) }
{
    if count == 0 {
        return Ok(front);
    }
    let ty = type_near(false, u128::from(count));
    let zeros = ResolvedExpr::Const(ty, zeros(ty));
    Ok(Some(put_behind(alloc, front, zeros)?))
}

// The bits of the word that a part gives.
fn word_part(alloc: Global, part: Part) -> Result<ResolvedExpr, Memory>
    ensures { (tables : List (List Bits)) → IfOk result (λ r. view_expression tables r ≡ made_part part) }
{
    let more = part.hi.saturating_sub(part.lo);
    let kind = Kind::Range {
        hi: part.at.saturating_add(more),
        lo: part.at,
    };
    let word = ResolvedExpr::Read(Kind::RdInstr, type_near(false, 32));
    let word = Box::new(alloc, word)?;
    Ok(ResolvedExpr::One(kind, type_near(false, u128::from(more) + 1), word))
}

// What stands in front, with the zeros above a part and the part behind it.
fn with_part(
    alloc: Global,
    front: Option<ResolvedExpr>,
    below: u16,
    part: Part,
) -> Result<ResolvedExpr, Memory>
    ensures { (tables : List (List Bits)) → IfOk result (λ r. view_expression tables r ≡ with_part (option_map (view_expression tables) front) below part) }
{
    let gap = below.saturating_sub(past(part));
    let front = with_zeros(alloc, front, gap)?;
    let part = word_part(alloc, part)?;
    put_behind(alloc, front, part)
}

// What stands in front, with the parts and the zeros between them and below them behind it.
fn with_parts(
    alloc: Global,
    front: Option<ResolvedExpr>,
    below: u16,
    parts: &[Part],
) -> Result<Option<ResolvedExpr>, Memory>
    ensures { (tables : List (List Bits)) → IfOk result (λ r. option_map (view_expression tables) r ≡ made_from (option_map (view_expression tables) front) below parts.now) }
{
    match parts.split_first() {
        None => with_zeros(alloc, front, below),
        Some((part, rest)) => {
            let front = with_part(alloc, front, below, *part)?;
            with_parts(alloc, Some(front), u16::from(part.lo), rest)
        }
    }
}

// One more than the highest bit of a part.
fn past(part: Part) -> u16
    ensures { result ≡ part.hi + 1 }
{
    u16::from(part.hi) + 1
}

// One more than the highest bit.
fn top_of(parts: &[Part]) -> u16
    ensures { result ≡ top_of_parts parts.now }
{
    match parts.split_first() {
        None => 0,
        Some((part, _)) => past(*part),
    }
}

/// A field: from the highest bit down, the bits that its pieces give, and zeros for bits that none gives.
pub(crate) fn field(alloc: Global, pieces: &[Piece], name: &str) -> Result<ResolvedExpr, Memory>
    ensures { (tables : List (List Bits)) → IfOk result (λ r. view_expression tables r ≡ made_field pieces.now name.now) }
{
    let parts = parts_of(alloc, pieces, name)?;
    let parts = parts.as_slice();
    match with_parts(alloc, None, top_of(parts), parts)? {
        None => {
            let ty = type_near(false, 1);
            Ok(ResolvedExpr::Const(ty, zeros(ty)))
        }
        Some(e) => Ok(e),
    }
}
