ghost use Rattle.std.specs.Prelude.{◌≡◌, ◌≤◌, ◌++◌, ◌&&◌, nat_le, List, IfOk, OnOk};
ghost use Rattle.ix_tree.specs.Lexing.{same_bytes};
ghost use Rattle.std.specs.List.{list_any};
ghost use Rattle.ix_tree.specs.declared.extension.Piece.{Piece};
ghost use Rattle.ix_extension.specs.Encodings.{IsInWord, AreInWord, width_of, bits_of, fixed_bits, fixed_value, mask_of, match_of, placed, pieces_of, gives_again, has_field_twice};

use ix_bits::{List, Memory, Name};
use ix_tree::{Piece, PieceKind, PieceText};
use std::alloc::Global;

// How many bits a piece has.
fn width_of(kind: &PieceKind) -> u128
    requires { IsInWord kind.now }
    ensures value { result ≡ width_of kind.now }
    ensures most { result ≤ 128 }
{
    match kind {
        PieceKind::Fixed(bits) => u128::from(bits.width),
        PieceKind::Field { name: _, hi, lo } => *hi - *lo + 1,
    }
}

/// How many bits the pieces have.
pub fn bits_of(pieces: &[PieceText]) -> u128
    requires { AreInWord pieces.now }
    ensures { result ≡ bits_of pieces.now }
{
    let mut bits = 0;
    for piece in pieces {
        bits += width_of(&piece.kind);
    }
    bits
}

// The bits of a piece that are fixed.
fn fixed_bits(kind: &PieceKind) -> u128
    ensures { result ≡ fixed_bits kind.now }
{
    match kind {
        PieceKind::Fixed(bits) => u128::MAX >> (128 - bits.width),
        PieceKind::Field { .. } => 0,
    }
}

// What the fixed bits of a piece are.
fn fixed_value(kind: &PieceKind) -> u128
    ensures { result ≡ fixed_value kind.now }
{
    match kind {
        PieceKind::Fixed(bits) => bits.raw,
        PieceKind::Field { .. } => 0,
    }
}

/// The fixed bits of the word, as those that are 1.
pub fn mask_of(pieces: &[PieceText]) -> u32
    requires word { AreInWord pieces.now }
    requires whole { bits_of pieces.now ≡ 32 }
    ensures { result ≡ mask_of pieces.now }
{
    let mut at = 32;
    let mut mask = 0;
    for piece in pieces {
        at -= width_of(&piece.kind);
        mask += fixed_bits(&piece.kind) << at;
    }
    mask as u32
}

/// What the fixed bits of the word are.
pub fn match_of(pieces: &[PieceText]) -> u32
    requires word { AreInWord pieces.now }
    requires whole { bits_of pieces.now ≡ 32 }
    ensures { result ≡ match_of pieces.now }
{
    let mut at = 32;
    let mut matches = 0;
    for piece in pieces {
        at -= width_of(&piece.kind);
        matches += fixed_value(&piece.kind) << at;
    }
    matches as u32
}

/// Where the pieces of fields stand, left to right.
pub fn pieces_of(alloc: Global, pieces: &[PieceText]) -> Result<List<Piece>, Memory>
    requires word { AreInWord pieces.now }
    requires whole { bits_of pieces.now ≡ 32 }
    ensures { IfOk result (λ ps. ps ≡ pieces_of pieces.now) }
{
    let mut at = 32;
    let mut out = List::new(alloc);
    for piece in pieces {
        at -= width_of(&piece.kind);
        match put_piece(alloc, &mut out, &piece.kind, at as u8) {
            Err(_) => return Err(Memory),
            Ok(()) => {}
        }
    }
    Ok(out)
}

// Puts the piece behind the others if it is one of a field.
fn put_piece(alloc: Global, out: &mut List<Piece>, kind: &PieceKind, at: u8) -> Result<(), Memory>
    requires { IsInWord kind.now }
    ensures { OnOk result ((rest : List Piece) → out.new ++ rest ≡ out.old ++ placed kind.now at rest) }
{
    match kind {
        PieceKind::Fixed(_) => Ok(()),
        PieceKind::Field { name, hi, lo } => {
            let field = Name::from_text(alloc, name.as_str())?;
            out.push(Piece {
                field,
                hi: *hi as u8,
                lo: *lo as u8,
                at,
            })
        }
    }
}

// Whether two pieces give one bit of a field.
fn gives_again(a: &PieceKind, b: &PieceKind) -> bool
    ensures { result ≡ gives_again a.now b.now }
{
    match (a, b) {
        (
            PieceKind::Field { name, hi, lo },
            PieceKind::Field {
                name: other,
                hi: high,
                lo: low,
            },
        ) => is_same(name, other) && have_one_bit(*hi, *lo, *high, *low),
        _ => false,
    }
}

fn is_same(a: &Name, b: &Name) -> bool
    ensures { result ≡ same_bytes a.now b.now }
{
    a.as_str() == b.as_str()
}

// Whether bits `hi` to `lo` and bits `high` to `low` have one in common.
fn have_one_bit(hi: u128, lo: u128, high: u128, low: u128) -> bool
    ensures { result ≡ (nat_le lo high && nat_le low hi) }
{
    lo <= high && low <= hi
}

/// Whether one bit of a field is given twice.
pub fn has_field_twice(pieces: &[PieceText]) -> bool
    ensures { result ≡ has_field_twice pieces.now }
{
    let mut left = pieces;
    while let Some((piece, rest)) = left.split_first() {
        if is_given_again(piece, rest) {
            return true;
        }
        left = rest;
    }
    false
}

// Whether a bit of the piece is given by one of the others.
fn is_given_again(piece: &PieceText, others: &[PieceText]) -> bool
    ensures { result ≡ list_any (λ q. gives_again piece.now.kind q.kind) others.now }
{
    others
        .iter()
        .any(|other| gives_again(&piece.kind, &other.kind))
}
