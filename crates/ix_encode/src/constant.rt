ghost use Rattle.std.specs.Prelude.{◌≡◌, [], map, IfOk};
ghost use Rattle.ix_tree.specs.LoopHeads.{head_value};
ghost use Rattle.ix_tree.specs.TypedTrees.{erased};
ghost use Rattle.ix_tree.specs.TypedView.{typed_view, typed_option};
ghost use Rattle.ix_unroll.specs.Values.{seen_option};
ghost use Rattle.ix_extension.specs.Extensions.{constant_in, entry, initial};

use ix_bits::{Bits, List, Memory, Ty, Value, cast};
use ix_tree::{TypedExpr, TypedExprKind};
use ix_unroll::{binary_value, bits_value, cast_value, choice_value, literal_value, unary_value};
use std::alloc::Global;

// The value of an expression of literals alone, if it has a type.
fn constant_value(e: &TypedExpr) -> Option<Value>
    ensures { seen_option result ≡ head_value (erased (typed_view e.now)) [] }
{
    match &e.kind {
        TypedExprKind::Literal(ty, bits) => literal_value(*ty, *bits),
        TypedExprKind::Name(_) | TypedExprKind::Pc | TypedExprKind::X | TypedExprKind::Mem => None,
        TypedExprKind::Index(e, l) => {
            let low = constant_value(l);
            bits_value(constant_value(e), low, low)
        }
        TypedExprKind::Range(e, h, l) => {
            bits_value(constant_value(e), constant_value(h), constant_value(l))
        }
        TypedExprKind::Unary(op, e) => unary_value(*op, constant_value(e)),
        TypedExprKind::Cast(to, e) => cast_value(*to, constant_value(e)),
        TypedExprKind::Binary(op, e, f) => binary_value(*op, constant_value(e), constant_value(f)),
        TypedExprKind::Choose(c, e, f) => {
            choice_value(constant_value(c), constant_value(e), constant_value(f))
        }
    }
}

// A pattern of zeros.
fn zero(ty: Ty) -> Bits
    ensures width { result.width ≡ ty.width }
    ensures raw { result.raw ≡ 0 }
{
    Bits {
        raw: 0,
        width: ty.width,
    }
}

// The pattern of a constant in a type; 0 for none.
fn constant_in(ty: Ty, value: Option<Value>) -> Bits
    ensures { result ≡ constant_in ty (seen_option value) }
{
    match value {
        None => zero(ty),
        Some(value) => cast(value.ty, ty, value.bits),
    }
}

/// The pattern that a register starts with: that of its initial value, or 0.
pub fn initial(ty: Ty, value: &Option<TypedExpr>) -> Bits
    ensures { result ≡ initial ty (typed_option value.now) }
{
    match value {
        None => constant_in(ty, None),
        Some(value) => constant_in(ty, constant_value(value)),
    }
}

/// The patterns of a table's entries.
pub fn entries(alloc: Global, ty: Ty, all: &[TypedExpr]) -> Result<List<Bits>, Memory>
    ensures { IfOk result (λ xs. xs ≡ map (entry ty) (map typed_view all.now)) }
{
    let mut out = List::new(alloc);
    for e in all {
        match out.push(constant_in(ty, constant_value(e))) {
            Err(_) => return Err(Memory),
            Ok(()) => {}
        }
    }
    Ok(out)
}
