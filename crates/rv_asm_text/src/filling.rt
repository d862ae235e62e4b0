ghost use Rattle.std.specs.Prelude.{◌≡◌, ◌+◌, ◌-◌, ◌*◌, ◌/◌, ◌%◌, ◌^◌, ◌≤◌, ◌<◌, map, min, max, bit_or, Some, None, IfSome};
ghost use Rattle.rv_asm_text.specs.Filling.{width_from, pattern_in as specified_pattern_in, part_of, shifted as specified_shifted, given_from, placed_from, is_given as specified_is_given, placed_in, field_bits as specified_field_bits, operand_bits as specified_operand_bits, with_bits as specified_with_bits, filled as specified_filled};

use crate::indexing::is_same;
use crate::number::Number;
use crate::operand::{Operand, value};
use crate::verdict::Verdict;
use ix_tree::Piece;

// The width of a field: its highest bit plus 1, at most 32.
fn width_of(pieces: &[Piece], field: &str) -> u8
    ensures value { result ≡ width_from field.now 0 pieces.now }
    ensures most { result ≤ 32 }
{
    let mut width = 0u16;
    let mut left = pieces;
    while let Some((piece, rest)) = left.split_first() {
        if is_same(&piece.field, field) {
            width = width.max(u16::from(piece.hi) + 1);
        }
        left = rest;
    }
    width.min(32) as u8
}

// Two to a power of at most 32.
fn power(width: u8) -> u64
    requires { width ≤ 32 }
    ensures value { result ≡ 2 ^ width }
    ensures most { result ≤ 2 ^ 32 }
{
    1 << width
}

// The pattern of a number in a width of at most 32.
fn pattern_in(width: u8, n: Number) -> Option<u32>
    requires { width ≤ 32 }
    ensures { result ≡ specified_pattern_in width n }
{
    let past = power(width);
    if n.is_negative {
        if n.size <= power(width.saturating_sub(1)) {
            Some(((past - n.size) % past) as u32)
        } else {
            None
        }
    } else if n.size < past {
        Some(n.size as u32)
    } else {
        None
    }
}

// Bits `hi` down to `lo` of a value.
fn part(value: u32, hi: u8, lo: u8) -> u32
    ensures { result ≡ value / 2 ^ lo % 2 ^ (hi + 1 - lo) }
{
    if lo > 31 {
        return 0;
    }
    let rest = value >> lo;
    let width = (u16::from(hi) + 1).saturating_sub(u16::from(lo));
    if width > 31 {
        rest
    } else {
        rest & ((1 << width) - 1)
    }
}

// Bits with the lowest at a place, without those past the word.
fn shifted(bits: u32, at: u8) -> u32
    ensures { result ≡ specified_shifted bits at }
{
    if at > 31 { 0 } else { bits << at }
}

// Whether each bit of the value that the field's pieces do not give is 0.
fn is_given(pieces: &[Piece], field: &str, value: u32) -> bool
    ensures { result ≡ specified_is_given field.now value pieces.now }
{
    let mut given = 0u32;
    let mut left = pieces;
    while let Some((piece, rest)) = left.split_first() {
        if is_same(&piece.field, field) {
            given |= shifted(part(value, piece.hi, piece.lo), piece.lo);
        }
        left = rest;
    }
    given == value
}

// The bits of the value in the places of the field's pieces.
fn placed(pieces: &[Piece], field: &str, value: u32) -> u32
    ensures { result ≡ placed_from field.now value 0 pieces.now }
{
    let mut word = 0u32;
    let mut left = pieces;
    while let Some((piece, rest)) = left.split_first() {
        if is_same(&piece.field, field) {
            word |= shifted(part(value, piece.hi, piece.lo), piece.at);
        }
        left = rest;
    }
    word
}

// The bits of the word that a field's number gives.
fn field_bits(pieces: &[Piece], field: &str, n: Number) -> Option<u32>
    ensures { result ≡ specified_field_bits pieces.now n field.now }
{
    match pattern_in(width_of(pieces, field), n) {
        None => None,
        Some(value) => {
            if is_given(pieces, field, value) {
                Some(placed(pieces, field, value))
            } else {
                None
            }
        }
    }
}

fn operand_bits(pieces: &[Piece], operand: Operand, n: Number) -> Option<u32>
    ensures { result ≡ specified_operand_bits pieces.now operand n }
{
    match pieces.get(operand.piece) {
        None => None,
        Some(piece) => field_bits(pieces, piece.field.as_str(), n),
    }
}

fn with_bits(verdict: Verdict, bits: Option<u32>) -> Verdict
    ensures { result ≡ specified_with_bits verdict bits }
{
    match verdict {
        Verdict::Word(word) => match bits {
            None => Verdict::Reach,
            Some(bits) => Verdict::Word(word | bits),
        },
        Verdict::Empty => Verdict::Empty,
        Verdict::Line => Verdict::Line,
        Verdict::Label => Verdict::Label,
        Verdict::Reach => Verdict::Reach,
    }
}

/// What the operands make of the fixed bits of an instruction.
pub(crate) fn filled(
    pieces: &[Piece],
    matches: u32,
    operands: &[Operand],
    texts: &[&[u8]],
) -> Verdict
    ensures { result ≡ specified_filled pieces.now (Verdict.Word matches) operands.now (map (λ text. text.now) texts.now) }
{
    let mut verdict = Verdict::Word(matches);
    for (k, operand) in operands.iter().enumerate() {
        if k >= texts.len() {
            return Verdict::Line;
        }
        match value(*operand, texts[k]) {
            None => return Verdict::Line,
            Some(n) => verdict = with_bits(verdict, operand_bits(pieces, *operand, n)),
        }
    }
    if operands.len() == texts.len() {
        verdict
    } else {
        Verdict::Line
    }
}
