ghost use Rattle.std.specs.Prelude.{◌≡◌, List};
ghost use Rattle.ix_bits.specs.declared.number.Bits.{Bits};
ghost use Rattle.ix_bits.specs.NearTypes.{type_near, type_with, int_type};
ghost use Rattle.ix_bits.specs.ResultTypes.{binary_signed, binary_width};
ghost use Rattle.ix_mean.specs.Core.{type_of_expression};
ghost use Rattle.ix_mean.specs.EffectByName.{or_u1, type_of_text};
ghost use Rattle.ix_mean.specs.View.{view_expression};

use ix_bits::{BinOp, Ty, width_of_both};
use ix_mean::ResolvedExpr;
use ix_tree::{TypeKind, TypeText};

/// The type of this signedness, and of the width from 1 to 128 that is next to the given one.
pub fn type_near(signed: bool, width: u128) -> Ty
    ensures { result ≡ type_near signed width }
{
    Ty {
        signed,
        width: width.min(128).max(1) as u8,
    }
}

/// The type `unsigned<1>` where the written type has no width from 1 to 128, else that type.
pub(crate) fn type_of_text(text: TypeText) -> Ty
    ensures { result ≡ type_of_text text }
{
    match text.kind {
        TypeKind::Signed(width) => sized(true, width),
        TypeKind::Unsigned(width) => sized(false, width),
        TypeKind::Int => int_type(),
        TypeKind::Bool => type_near(false, 1),
    }
}

// The type of this signedness and width, or `unsigned<1>`.
fn sized(signed: bool, width: u128) -> Ty
    ensures { result ≡ or_u1 (type_with signed width) }
{
    if 1 <= width && width <= 128 {
        type_near(signed, width)
    } else {
        type_near(false, 1)
    }
}

// The type `int`.
fn int_type() -> Ty
    ensures { result ≡ int_type }
{
    Ty {
        signed: true,
        width: 32,
    }
}

/// The result type of `a op b`, at most 128 bits wide.
pub(crate) fn joined(op: BinOp, a: Ty, b: Ty) -> Ty
    ensures { result ≡ type_near (binary_signed op a b) (binary_width op a b) }
{
    let both = u128::from(width_of_both(a, b));
    let sum = u128::from(a.width) + u128::from(b.width);
    match op {
        BinOp::Add => type_near(a.signed || b.signed, both + 1),
        BinOp::Sub => type_near(true, both + 1),
        BinOp::Mul => type_near(a.signed || b.signed, sum),
        BinOp::And | BinOp::Or | BinOp::Xor => {
            type_near(a.signed, u128::from(a.width.max(b.width)))
        }
        BinOp::Shl | BinOp::Shr => type_near(a.signed, u128::from(a.width)),
        BinOp::Eq
        | BinOp::Ne
        | BinOp::Lt
        | BinOp::Le
        | BinOp::Gt
        | BinOp::Ge
        | BinOp::Land
        | BinOp::Lor => type_near(false, 1),
        BinOp::Concat => type_near(false, sum),
    }
}

/// The type of an expression.
pub(crate) fn type_of(e: &ResolvedExpr) -> Ty
    ensures { (tables : List (List Bits)) → result ≡ type_of_expression (view_expression tables e.now) }
{
    match e {
        ResolvedExpr::Const(ty, _)
        | ResolvedExpr::Slot(_, ty)
        | ResolvedExpr::Read(_, ty)
        | ResolvedExpr::Load(ty, _)
        | ResolvedExpr::One(_, ty, _)
        | ResolvedExpr::Cast(ty, _)
        | ResolvedExpr::Entry(_, ty, _)
        | ResolvedExpr::Two(_, ty, _, _)
        | ResolvedExpr::Choose(ty, _, _, _) => *ty,
    }
}
