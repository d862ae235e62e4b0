ghost use Rattle.std.specs.Prelude.{◌≡◌, [], pos};
ghost use Rattle.ix_bits.specs.ResultTypes.{Embeds};
ghost use Rattle.ix_bits.specs.Operators.{is_true};
ghost use Rattle.ix_tree.specs.Unrolling.{stepped};
ghost use Rattle.ix_tree.specs.View.{view};
ghost use Rattle.ix_bits.specs.NearTypes.{type_with, int_type};
ghost use Rattle.ix_tree.specs.LoopHeads.{head_value, written_type, cast_type, valued, literal_value, variable_value, unary_value, binary_value, cast_value, bits_value, bits_at, choice_value};
ghost use Rattle.ix_unroll.specs.Scopes.{bindings};
ghost use Rattle.ix_unroll.specs.Values.{seen, seen_option, in_int, place_of};

use crate::scope::{Scope, value_in};
use ix_bits::{BinOp, Bits, Ty, UnOp, Value, binary, cast, is_negative, range, unary};
use ix_tree::{CastTo, Expr, ExprKind, TypeKind};
use ix_types::{common, type_of_binary, type_of_unary};

/// The type `int`.
const INT: Ty = Ty {
    signed: true,
    width: 32,
};

/// The value of an expression in a loop's head, if it is built of literals and loop variables and has a type.
pub fn head_value(scope: &Scope, e: &Expr) -> Option<Value>
    ensures { seen_option result ≡ head_value (view e.now) (bindings scope.now) }
{
    match &e.kind {
        ExprKind::Literal(ty, bits) => literal_value(*ty, *bits),
        ExprKind::Name(name) => variable_value(value_in(scope, name.as_str())),
        ExprKind::Pc | ExprKind::X | ExprKind::Mem => None,
        ExprKind::Index(e, l) => {
            let low = head_value(&Scope::Outside, l);
            bits_value(head_value(scope, e), low, low)
        }
        ExprKind::Range(e, h, l) => bits_value(
            head_value(scope, e),
            head_value(&Scope::Outside, h),
            head_value(&Scope::Outside, l),
        ),
        ExprKind::Unary(op, e) => unary_value(*op, head_value(scope, e)),
        ExprKind::Cast(to, e) => cast_value(*to, head_value(scope, e)),
        ExprKind::Binary(op, e, f) => {
            binary_value(*op, head_value(scope, e), head_value(scope, f))
        }
        ExprKind::Choose(c, e, f) => choice_value(
            head_value(scope, c),
            head_value(scope, e),
            head_value(scope, f),
        ),
    }
}

/// The value of an expression of literals alone, if it has a type.
pub fn constant_value(e: &Expr) -> Option<Value>
    ensures { seen_option result ≡ head_value (view e.now) [] }
{
    head_value(&Scope::Outside, e)
}

// The type of this signedness and width, if it has one.
fn type_with(signed: bool, width: u128) -> Option<Ty>
    ensures { result ≡ type_with signed width }
{
    if 1 <= width && width <= 128 {
        Some(Ty {
            signed,
            width: width as u8,
        })
    } else {
        None
    }
}

fn cast_type(to: CastTo, from: Ty) -> Option<Ty>
    ensures { result ≡ cast_type to from }
{
    match to {
        CastTo::Signed => type_with(true, u128::from(from.width)),
        CastTo::Unsigned => type_with(false, u128::from(from.width)),
        CastTo::Written(text) => match text.kind {
            TypeKind::Signed(width) => type_with(true, width),
            TypeKind::Unsigned(width) => type_with(false, width),
            TypeKind::Int => Some(INT),
            TypeKind::Bool => type_with(false, 1),
        },
    }
}

/// The value of a literal, if its pattern has the width of its type.
pub fn literal_value(ty: Ty, bits: Bits) -> Option<Value>
    ensures { seen_option result ≡ literal_value ty bits }
{
    if bits.width == ty.width {
        Some(Value { ty, bits })
    } else {
        None
    }
}

fn variable_value(value: Option<i32>) -> Option<Value>
    ensures { seen_option result ≡ variable_value value }
{
    match value {
        None => None,
        Some(value) => Some(int_value(value)),
    }
}

/// A number of the type `int`.
fn int_value(value: i32) -> Value
    ensures { seen result ≡ record { ty = int_type; number = value } }
{
    Value {
        ty: INT,
        bits: Bits {
            raw: u128::from(value.cast_unsigned()),
            width: 32,
        },
    }
}

/// The value of an operator on one value, if it has a type of at most 128 bits.
pub fn unary_value(op: UnOp, x: Option<Value>) -> Option<Value>
    ensures { seen_option result ≡ unary_value op (seen_option x) }
{
    match x {
        None => None,
        Some(x) => match type_of_unary(op, x.ty) {
            Err(_) => None,
            Ok(ty) => Some(Value {
                ty,
                bits: unary(op, x.ty, x.bits),
            }),
        },
    }
}

/// The value of an operator on two values, if it has a type of at most 128 bits.
pub fn binary_value(op: BinOp, x: Option<Value>, y: Option<Value>) -> Option<Value>
    ensures { seen_option result ≡ binary_value op (seen_option x) (seen_option y) }
{
    match (x, y) {
        (Some(x), Some(y)) => match type_of_binary(op, x.ty, y.ty) {
            Err(_) => None,
            Ok(ty) => Some(Value {
                ty,
                bits: binary(op, x.ty, x.bits, y.ty, y.bits),
            }),
        },
        _ => None,
    }
}

/// The value of a cast, if the type that it goes to has 1 to 128 bits.
pub fn cast_value(to: CastTo, x: Option<Value>) -> Option<Value>
    ensures { seen_option result ≡ cast_value to (seen_option x) }
{
    match x {
        None => None,
        Some(x) => match cast_type(to, x.ty) {
            None => None,
            Some(ty) => Some(Value {
                ty,
                bits: cast(x.ty, ty, x.bits),
            }),
        },
    }
}

/// Bits `high` down to `low` of the pattern of `x`, if `0 <= low <= high` and `high` is below its width.
pub fn bits_value(x: Option<Value>, high: Option<Value>, low: Option<Value>) -> Option<Value>
    ensures { seen_option result ≡ bits_value (seen_option x) (seen_option high) (seen_option low) }
{
    match (x, high, low) {
        (Some(x), Some(high), Some(low)) => bits_at(x, high, low),
        _ => None,
    }
}

fn bits_at(x: Value, high: Value, low: Value) -> Option<Value>
    ensures { seen_option result ≡ bits_at (seen x) (seen high).number (seen low).number }
{
    let high = place(high)?;
    let low = place(low)?;
    if low <= high && high < x.bits.width {
        Some(Value {
            ty: Ty {
                signed: false,
                width: high - low + 1,
            },
            bits: range(x.bits, high, low),
        })
    } else {
        None
    }
}

// The number where it is the place of a bit, from 0 to 127.
fn place(x: Value) -> Option<u8>
    ensures { result ≡ place_of (seen x).number }
{
    if is_negative(x.ty, x.bits) || 128 <= x.bits.raw {
        None
    } else {
        Some(x.bits.raw as u8)
    }
}

/// The value of `c ? x : y` in the smallest type that holds both, if that has at most 128 bits.
pub fn choice_value(c: Option<Value>, x: Option<Value>, y: Option<Value>) -> Option<Value>
    ensures { seen_option result ≡ choice_value (seen_option c) (seen_option x) (seen_option y) }
{
    match (c, x, y) {
        (Some(c), Some(x), Some(y)) => {
            let ty = match common(x.ty, y.ty) {
                Err(_) => return None,
                Ok(ty) => ty,
            };
            Some(if holds(c) {
                embedded(ty, x)
            } else {
                embedded(ty, y)
            })
        }
        _ => None,
    }
}

// The same number as one of a type that holds it.
fn embedded(ty: Ty, x: Value) -> Value
    requires { Embeds x.ty ty }
    ensures { seen result ≡ record { ty = ty; number = (seen x).number } }
{
    Value {
        ty,
        bits: cast(x.ty, ty, x.bits),
    }
}

/// Whether the number counts as true.
pub fn holds(x: Value) -> bool
    ensures { result ≡ is_true (seen x).number }
{
    x.bits.raw != 0
}

/// The value after a turn: of `e` for `v = e`, and of `v op e` for `v op= e`.
pub fn stepped(op: Option<BinOp>, v: i32, e: Option<Value>) -> Option<Value>
    ensures { seen_option result ≡ stepped op (variable_value (Some v)) (seen_option e) }
{
    match op {
        None => e,
        Some(op) => binary_value(op, Some(int_value(v)), e),
    }
}

/// The number where it is one of the type `int`.
pub fn in_int(x: Value) -> Option<i32>
    ensures { result ≡ in_int (seen x).number }
{
    if is_negative(x.ty, x.bits) {
        let beyond = (u128::MAX >> (128 - x.ty.width)) - x.bits.raw;
        if beyond < 1 << 31 {
            Some(-1 - beyond as i32)
        } else {
            None
        }
    } else if x.bits.raw < 1 << 31 {
        Some(x.bits.raw as i32)
    } else {
        None
    }
}
