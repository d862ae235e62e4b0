ghost use Rattle.std.specs.Prelude.{◌≡◌, []};
ghost use Rattle.ix_tree.specs.LoopHeads.{head_value};
ghost use Rattle.ix_tree.specs.TypedTrees.{erased};
ghost use Rattle.ix_tree.specs.TypedView.{typed_view};
ghost use Rattle.ix_unroll.specs.Values.{seen_option};
ghost use Rattle.ix_slots.specs.Made.{place_in, place_of};

use ix_bits::{Value, is_negative};
use ix_tree::{TypedExpr, TypedExprKind};
use ix_unroll::{binary_value, bits_value, cast_value, choice_value, literal_value, unary_value};

// The value of an expression of literals alone, if it has a type.
fn constant_value(e: &TypedExpr) -> Option<Value>
    ensures { seen_option result ≡ head_value (erased (typed_view e.now)) [] }
{
    match &e.kind {
        TypedExprKind::Literal(ty, bits) => literal_value(*ty, *bits),
        TypedExprKind::Name(_) | TypedExprKind::Pc | TypedExprKind::X | TypedExprKind::Mem => None,
        TypedExprKind::Index(e, l) => {
            let low = constant_value(l);
            bits_value(constant_value(e), low, low)
        }
        TypedExprKind::Range(e, h, l) => {
            bits_value(constant_value(e), constant_value(h), constant_value(l))
        }
        TypedExprKind::Unary(op, e) => unary_value(*op, constant_value(e)),
        TypedExprKind::Cast(to, e) => cast_value(*to, constant_value(e)),
        TypedExprKind::Binary(op, e, f) => binary_value(*op, constant_value(e), constant_value(f)),
        TypedExprKind::Choose(c, e, f) => {
            choice_value(constant_value(c), constant_value(e), constant_value(f))
        }
    }
}

// The place that a constant names, at most 255; 0 for none.
fn place(value: Option<Value>) -> u8
    ensures { result ≡ place_in (seen_option value) }
{
    match value {
        None => 0,
        Some(value) => {
            if is_negative(value.ty, value.bits) {
                0
            } else {
                value.bits.raw.min(255) as u8
            }
        }
    }
}

/// The place of a bit that a constant names, at most 255.
pub(crate) fn place_of(e: &TypedExpr) -> u8
    ensures { result ≡ place_of (typed_view e.now) }
{
    place(constant_value(e))
}
