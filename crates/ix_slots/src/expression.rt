ghost use Rattle.std.specs.Prelude.{◌≡◌, List, IfOk, if◌then◌else◌};
ghost use Rattle.ix_bits.specs.declared.number.Ty.{Ty};
ghost use Rattle.ix_graph.specs.declared.kind.Kind.TheVariants.{Range};
ghost use Rattle.ix_tree.specs.TypedTrees.{TypedExprTree};
ghost use Rattle.ix_tree.specs.TypedView.{typed_view};
ghost use Rattle.ix_mean.specs.Core.{u32 as word_type, Expression, x_read, x_load};
ghost use Rattle.ix_mean.specs.View.{view_expression};
ghost use Rattle.ix_mean.specs.Resolving.{slot_in, unary_kind, operand_expression};
ghost use Rattle.ix_slots.specs.Found.{entries_of};
ghost use Rattle.ix_slots.specs.Made.{place_of, made, made_name, made_bits, made_index, made_range};
ghost use Rattle.ix_slots.specs.Elements.{made_element};

use crate::constant::place_of;
use crate::field::{cut, field, stands_at_15, zeros};
use crate::locals::Locals;
use crate::names::Names;
use crate::types::type_near;
use ix_bits::{Memory, Ty, UnOp};
use ix_graph::Kind;
use ix_mean::ResolvedExpr;
use ix_tree::{Piece, TypedExpr, TypedExprKind};
use std::alloc::Global;

/// The type of words.
pub(crate) fn word() -> Ty
    ensures { result ≡ word_type }
{
    type_near(false, 32)
}

/// The expression with its names resolved.
#[cycle(expressions)]
pub(crate) fn expression(
    alloc: Global,
    names: &Names,
    locals: &Locals,
    e: &TypedExpr,
) -> Result<ResolvedExpr, Memory>
    ensures { IfOk result (λ r. view_expression (entries_of names.now.tables) r ≡ made names.now locals.now.locals (typed_view e.now)) }
{
    let ty = e.ty;
    Ok(match &e.kind {
        TypedExprKind::Literal(_, bits) => ResolvedExpr::Const(ty, cut(ty, *bits)),
        TypedExprKind::Name(n) => return name(alloc, names, locals, n.as_str()),
        TypedExprKind::Pc => ResolvedExpr::Read(Kind::RdPC, word()),
        TypedExprKind::X | TypedExprKind::Mem => ResolvedExpr::Const(ty, zeros(ty)),
        TypedExprKind::Index(x, at) => match indexed(names, x, at) {
            Element::Operand(kind) => ResolvedExpr::Read(kind, word()),
            Element::Loaded => ResolvedExpr::Load(ty, boxed(alloc, names, locals, at)?),
            Element::Entry(table) => {
                ResolvedExpr::Entry(table, ty, boxed(alloc, names, locals, at)?)
            }
            Element::Bit => ResolvedExpr::One(bits(at, at), ty, boxed(alloc, names, locals, x)?),
        },
        TypedExprKind::Range(x, h, l) => {
            if is_memory(x) {
                ResolvedExpr::Load(ty, boxed(alloc, names, locals, l)?)
            } else {
                ResolvedExpr::One(bits(h, l), ty, boxed(alloc, names, locals, x)?)
            }
        }
        TypedExprKind::Unary(op, x) => ResolvedExpr::One(
            unary_kind(*op),
            ty,
            boxed(alloc, names, locals, x)?,
        ),
        TypedExprKind::Cast(_, x) => ResolvedExpr::Cast(ty, boxed(alloc, names, locals, x)?),
        TypedExprKind::Binary(op, x, y) => ResolvedExpr::Two(
            *op,
            ty,
            boxed(alloc, names, locals, x)?,
            boxed(alloc, names, locals, y)?,
        ),
        TypedExprKind::Choose(c, x, y) => ResolvedExpr::Choose(
            ty,
            boxed(alloc, names, locals, c)?,
            boxed(alloc, names, locals, x)?,
            boxed(alloc, names, locals, y)?,
        ),
    })
}

#[cycle(expressions)]
fn boxed(
    alloc: Global,
    names: &Names,
    locals: &Locals,
    e: &TypedExpr,
) -> Result<Box<ResolvedExpr>, Memory>
    ensures { IfOk result (λ r. view_expression (entries_of names.now.tables) r.value ≡ made names.now locals.now.locals (typed_view e.now)) }
{
    Ok(Box::new(alloc, expression(alloc, names, locals, e)?)?)
}

// What a name stands for: a local, a custom register, or a field.
fn name(alloc: Global, names: &Names, locals: &Locals, name: &str) -> Result<ResolvedExpr, Memory>
    ensures { IfOk result (λ r. view_expression (entries_of names.now.tables) r ≡ made_name names.now name.now (slot_in locals.now.locals name.now)) }
{
    match locals.find(name) {
        Some(place) => Ok(ResolvedExpr::Slot(place.slot, place.ty)),
        None => match names.custom(name) {
            Some(custom) => Ok(ResolvedExpr::Read(Kind::RdCustReg(custom.number), custom.ty)),
            None => field(alloc, names.pieces(), name),
        },
    }
}

fn unary_kind(op: UnOp) -> Kind
    ensures { result ≡ unary_kind op }
{
    match op {
        UnOp::Neg => Kind::Neg,
        UnOp::Not => Kind::Not,
        UnOp::Lnot => Kind::Lnot,
    }
}

// The operand that a field names.
fn operand(pieces: &[Piece], name: &str) -> Kind
    ensures { x_read result word_type ≡ operand_expression pieces.now name.now }
{
    if stands_at_15(pieces, name) {
        Kind::RdRS1
    } else {
        Kind::RdRS2
    }
}

/// What `x[at]` is.
enum Element {
    /// An operand of the instruction.
    Operand(Kind),
    /// Bytes of memory.
    Loaded,
    /// An entry of the table with this number.
    Entry(usize),
    /// A bit.
    Bit,
}

// What `x[at]` is.
fn indexed(names: &Names, x: &TypedExpr, at: &TypedExpr) -> Element
    ensures { (ty : Ty) (base index : Expression) → made_element (entries_of names.now.tables) result ty base (typed_view at.now) index ≡ made_index names.now ty (typed_view x.now) base (typed_view at.now) index }
{
    match (&x.kind, &at.kind) {
        (TypedExprKind::X, TypedExprKind::Name(n)) => {
            Element::Operand(operand(names.pieces(), n.as_str()))
        }
        (TypedExprKind::Mem, _) => Element::Loaded,
        (TypedExprKind::Name(n), _) => match names.table(n.as_str()) {
            Some(table) => Element::Entry(table),
            None => Element::Bit,
        },
        _ => Element::Bit,
    }
}

fn is_memory(x: &TypedExpr) -> bool
    ensures { (ty : Ty) (base index : Expression) (h l : TypedExprTree) → made_range ty (typed_view x.now) base h l index ≡ (if result then x_load ty index else made_bits ty base h l) }
{
    match &x.kind {
        TypedExprKind::Mem => true,
        _ => false,
    }
}

// Bits h down to l, which are constants.
fn bits(h: &TypedExpr, l: &TypedExpr) -> Kind
    ensures { result ≡ Range (place_of (typed_view h.now)) (place_of (typed_view l.now)) }
{
    Kind::Range {
        hi: place_of(h),
        lo: place_of(l),
    }
}
