ghost use Rattle.std.specs.Prelude.{◌≡◌, ◌+◌, ◌-◌, ◌*◌, ◌/◌, ◌%◌, ◌<◌, ◌≤◌, ◌^◌, pos, int_lt, if◌then◌else◌};
ghost use Rattle.std.specs.Int.{int_shr};
ghost use Rattle.std.specs.Ordering.{int_cmp};
ghost use Rattle.ix_bits.specs.Types.{IsFit, number_of};
ghost use Rattle.ix_bits.specs.ResultTypes.{IsBinary, binary_signed, binary_width, unary_signed, unary_width, common_width};
ghost use Rattle.ix_bits.specs.Operators.{pattern_of, value_of, binary_number, unary_number, bits_between};

use crate::{BinOp, Bits, Ty, UnOp};
use std::cmp::Ordering;

/// The number of `to` that is congruent to the number of `a` modulo `2^to.width`, as a pattern of type `to`.
/// The pattern `a` has the width of `from`.
pub fn cast(from: Ty, to: Ty, a: Bits) -> Bits
    requires { a.width ≡ from.width }
    ensures width { result.width ≡ to.width }
    ensures pattern { result.raw ≡ pattern_of to.width (value_of from a.raw) }
    ensures fit { IsFit to (value_of from a.raw) (value_of to result.raw) }
{
    truncated(extended(from, a), to.width)
}

/// The number of `a op b` as a pattern of the result's type, with `a` of type `ta` and `b` of type `tb`.
pub fn binary(op: BinOp, ta: Ty, a: Bits, tb: Ty, b: Bits) -> Bits
    requires left { a.width ≡ ta.width }
    requires right { b.width ≡ tb.width }
    requires typed { IsBinary op ta tb }
    ensures width { result.width ≡ binary_width op ta tb }
    ensures number { number_of (binary_signed op ta tb) result.width result.raw ≡ binary_number op ta (value_of ta a.raw) tb (value_of tb b.raw) }
{
    match op {
        BinOp::Add => truncated(
            extended(ta, a).wrapping_add(extended(tb, b)),
            width_of_both(ta, tb) + 1,
        ),
        BinOp::Sub => truncated(
            extended(ta, a).wrapping_sub(extended(tb, b)),
            width_of_both(ta, tb) + 1,
        ),
        BinOp::Mul => truncated(
            extended(ta, a).wrapping_mul(extended(tb, b)),
            ta.width + tb.width,
        ),
        BinOp::And => truncated(extended(ta, a) & extended(tb, b), ta.width.max(tb.width)),
        BinOp::Or => truncated(extended(ta, a) | extended(tb, b), ta.width.max(tb.width)),
        BinOp::Xor => truncated(extended(ta, a) ^ extended(tb, b), ta.width.max(tb.width)),
        BinOp::Shl => truncated(moved_up(a.raw, b.raw), ta.width),
        BinOp::Shr => shifted_right(ta, a, b.raw),
        BinOp::Eq => truth(order(ta, a, tb, b).is_eq()),
        BinOp::Ne => truth(order(ta, a, tb, b).is_ne()),
        BinOp::Lt => truth(order(ta, a, tb, b).is_lt()),
        BinOp::Le => truth(order(ta, a, tb, b).is_le()),
        BinOp::Gt => truth(order(ta, a, tb, b).is_gt()),
        BinOp::Ge => truth(order(ta, a, tb, b).is_ge()),
        BinOp::Land => truth(a.raw != 0 && b.raw != 0),
        BinOp::Lor => truth(a.raw != 0 || b.raw != 0),
        BinOp::Concat => joined(a, b),
    }
}

/// The number of `op a` as a pattern of the result's type, with `a` of type `ta`.
pub fn unary(op: UnOp, ta: Ty, a: Bits) -> Bits
    requires width { a.width ≡ ta.width }
    requires typed { unary_width op ta ≤ 128 }
    ensures width { result.width ≡ unary_width op ta }
    ensures number { number_of (unary_signed op ta) result.width result.raw ≡ unary_number op ta (value_of ta a.raw) }
{
    match op {
        UnOp::Neg => truncated(extended(ta, a).wrapping_neg(), ta.width + 1),
        UnOp::Not => truncated(!a.raw, ta.width),
        UnOp::Lnot => truth(a.raw == 0),
    }
}

/// Bits `hi` down to `lo` of `a`.
pub fn range(a: Bits, hi: u8, lo: u8) -> Bits
    requires order { lo ≤ hi }
    requires within { hi < a.width }
    ensures width { result.width ≡ hi - lo + 1 }
    ensures value { result.raw ≡ bits_between a.raw hi lo }
{
    truncated(a.raw >> lo, hi - lo + 1)
}

// The ones of a width.
fn mask(width: u8) -> u128
    requires some { 1 ≤ width }
    requires most { width ≤ 128 }
    ensures { result ≡ 2 ^ width - 1 }
{
    u128::MAX >> (128 - width)
}

// The low bits of a number.
fn truncated(raw: u128, width: u8) -> Bits
    requires some { 1 ≤ width }
    requires most { width ≤ 128 }
    ensures width { result.width ≡ width }
    ensures value { result.raw ≡ raw % 2 ^ width }
{
    Bits {
        raw: raw & mask(width),
        width,
    }
}

/// Whether the number of type `ty` that the pattern stands for is negative. The pattern has the width of the type.
pub fn is_negative(ty: Ty, a: Bits) -> bool
    requires { a.width ≡ ty.width }
    ensures { result ≡ int_lt (value_of ty a.raw) (pos 0) }
{
    ty.signed && a.raw >> (ty.width - 1) != 0
}

// The number's pattern in 128 bits.
fn extended(ty: Ty, a: Bits) -> u128
    requires { a.width ≡ ty.width }
    ensures { result ≡ pattern_of 128 (value_of ty a.raw) }
{
    if is_negative(ty, a) {
        a.raw | !mask(ty.width)
    } else {
        a.raw
    }
}

/// The width of the smallest type that holds the numbers of both, which may be 129.
/// That type is unsigned where both are.
pub fn width_of_both(a: Ty, b: Ty) -> u8
    ensures { result ≡ common_width a b }
{
    if a.signed == b.signed {
        a.width.max(b.width)
    } else if a.signed {
        a.width.max(b.width + 1)
    } else {
        b.width.max(a.width + 1)
    }
}

// The order of two numbers.
fn order(ta: Ty, a: Bits, tb: Ty, b: Bits) -> Ordering
    requires left { a.width ≡ ta.width }
    requires right { b.width ≡ tb.width }
    ensures { result ≡ int_cmp (value_of ta a.raw) (value_of tb b.raw) }
{
    let left = is_negative(ta, a);
    if left != is_negative(tb, b) {
        if left {
            Ordering::Less
        } else {
            Ordering::Greater
        }
    } else {
        extended(ta, a).cmp(&extended(tb, b))
    }
}

// A truth value as a pattern of one bit.
fn truth(holds: bool) -> Bits
    ensures width { result.width ≡ 1 }
    ensures value { result.raw ≡ (if holds then 1 else 0) }
{
    Bits {
        raw: if holds { 1 } else { 0 },
        width: 1,
    }
}

// The bits moved up, without those past 128.
fn moved_up(bits: u128, by: u128) -> u128
    ensures { result ≡ bits * 2 ^ by % 2 ^ 128 }
{
    if by < 128 { bits << by } else { 0 }
}

// The bits moved down, without those past the lowest.
fn moved_down(bits: u128, by: u128) -> u128
    ensures { result ≡ bits / 2 ^ by }
{
    if by < 128 { bits >> by } else { 0 }
}

// The number divided by a power of two and rounded down, in its own type.
fn shifted_right(ty: Ty, a: Bits, by: u128) -> Bits
    requires { a.width ≡ ty.width }
    ensures width { result.width ≡ ty.width }
    ensures number { value_of ty result.raw ≡ int_shr (value_of ty a.raw) by }
{
    let bits = extended(ty, a);
    let moved = if is_negative(ty, a) {
        !moved_down(!bits, by)
    } else {
        moved_down(bits, by)
    };
    truncated(moved, ty.width)
}

// The bits of the first above those of the second.
fn joined(high: Bits, low: Bits) -> Bits
    requires { high.width + low.width ≤ 128 }
    ensures width { result.width ≡ high.width + low.width }
    ensures value { result.raw ≡ high.raw * 2 ^ low.width + low.raw }
{
    Bits {
        raw: high.raw << low.width | low.raw,
        width: high.width + low.width,
    }
}
