ghost use Rattle.std.specs.Prelude.{◌≡◌, Result, Ok, Some};
ghost use Rattle.ix_tree.specs.TypedTrees.{t_index, t_range};
ghost use Rattle.ix_tree.specs.TypedView.{typed_view};
ghost use Rattle.ix_tree.specs.View.{view};
ghost use Rattle.ix_typing.specs.Refusals.{Refusal};
ghost use Rattle.ix_typing.specs.Expressions.{word, based, table, as_table, as_field, field_of, lies_in_source, lies_in_destination, indexed, element_type, register_type, loaded_type, entry_or_bits, entry_type, is_always_below, is_constant_below, bits_type, ranged, range_type, loaded_range, width_loaded, width_of_sum, width_by};
ghost use Rattle.ix_typing.specs.Expressions as T;
ghost use Rattle.ix_unroll.specs.Values.{seen_option, place_of};
ghost use Rattle.ix_unroll.specs.Values as V;
ghost use Rattle.ix_check_parts.specs.Telling.{seen, seen_pair, Tells, TellsType};

use crate::CheckErr;
use crate::judged::{Judged, Pair};
use crate::same::is_same;
use crate::types::{goes_into, type_near};
use crate::words::{is_constant, mem_word, with_name, x_word};
use ix_bits::{BinOp, Ty, Value, boxed_pair, boxed_triple, is_negative};
use ix_tree::{Expr, ExprKind, Span, TypedExpr, TypedExprKind};
use ix_typing::{Field, Role, Setting, Shape, State};
use ix_unroll::constant_value;
use std::alloc::Global;

/// How many bits the index of an x register has.
const INDEX_BITS: u8 = 5;

/// What stands before an index or a range: X or MEM, which are words alone, or any expression, judged before.
pub fn word(
    setting: Setting,
    state: &State,
    accessed: bool,
    x: &Expr,
    judged: Result<Judged, CheckErr>,
) -> Result<Judged, CheckErr>
    ensures { (r : Result T.Judged Refusal) → Tells judged r → Tells result (word setting state.now accessed (view x.now) r) }
{
    match &x.kind {
        ExprKind::X => {
            drop(judged);
            x_word(setting, state, accessed, x.span)
        }
        ExprKind::Mem => {
            drop(judged);
            mem_word(setting, accessed, x.span)
        }
        _ => judged,
    }
}

/// What stands before an index: a table's name too.
pub fn based(
    alloc: Global,
    setting: Setting,
    state: &State,
    accessed: bool,
    x: &Expr,
    judged: Result<Judged, CheckErr>,
) -> Result<Judged, CheckErr>
    ensures { (r : Result T.Judged Refusal) → Tells judged r → Tells result (based setting state.now accessed (view x.now) r) }
{
    match &x.kind {
        ExprKind::Name(name) => match table(setting, state, name.as_str()) {
            None => judged,
            Some(shape) => {
                drop(judged);
                with_name(alloc, accessed, x.span, shape.ty, name)
            }
        },
        _ => word(setting, state, accessed, x, judged),
    }
}

/// The table of a name, if it is one.
fn table(setting: Setting, state: &State, name: &str) -> Option<Shape>
    ensures { result ≡ table setting state.now name.now }
{
    if is_constant(setting.body) {
        None
    } else {
        as_table(state.names.find(name))
    }
}

fn as_table(role: Option<Role>) -> Option<Shape>
    ensures { result ≡ as_table role }
{
    match role {
        None => None,
        Some(Role::Table { number: _, shape }) => Some(shape),
        Some(Role::Field(_)) => None,
        Some(Role::Local { .. }) => None,
        Some(Role::Register { .. }) => None,
    }
}

fn as_field(role: Option<Role>) -> Option<Field>
    ensures { result ≡ as_field role }
{
    match role {
        None => None,
        Some(Role::Table { .. }) => None,
        Some(Role::Field(field)) => Some(field),
        Some(Role::Local { .. }) => None,
        Some(Role::Register { .. }) => None,
    }
}

/// The field that an expression names, if it does.
pub fn field_of(state: &State, e: &Expr) -> Option<Field>
    ensures { result ≡ field_of state.now (view e.now) }
{
    match &e.kind {
        ExprKind::Name(name) => as_field(state.names.find(name.as_str())),
        _ => None,
    }
}

/// Whether the field lies exactly in bits 19 to 15 or 24 to 20 of the word.
fn lies_in_source(field: Option<Field>) -> bool
    ensures { result ≡ lies_in_source field }
{
    match field {
        None => false,
        Some(field) => field.count == INDEX_BITS && (field.is_rs1 || field.is_rs2),
    }
}

/// Whether the field lies exactly in bits 11 to 7 of the word.
pub fn lies_in_destination(field: Option<Field>) -> bool
    ensures { result ≡ lies_in_destination field }
{
    match field {
        None => false,
        Some(field) => field.count == INDEX_BITS && field.is_rd,
    }
}

/// `x[i]`.
pub fn indexed(
    alloc: Global,
    setting: Setting,
    state: &State,
    span: Span,
    x: &Expr,
    i: &Expr,
    base: Judged,
    index: Result<Judged, CheckErr>,
) -> Result<Judged, CheckErr>
    ensures { (r : Result T.Judged Refusal) → Tells index r → Tells result (indexed setting state.now span (view x.now) (view i.now) (seen base) r) }
{
    match index {
        Err(error) => {
            drop(base);
            Err(error)
        }
        Ok(index) => match element_type(setting, state, span, x, i, base.tree.ty, index.tree.ty) {
            Err(error) => {
                drop(base);
                drop(index);
                Err(error)
            }
            Ok(ty) => element(alloc, span, ty, base.tree, index),
        },
    }
}

fn element(
    alloc: Global,
    span: Span,
    ty: Ty,
    base: TypedExpr,
    index: Judged,
) -> Result<Judged, CheckErr>
    ensures { Tells result (Ok (record { tree = t_index span ty (typed_view base) (typed_view index.tree); ty = ty; accessed = index.accessed })) }
{
    match boxed_pair(alloc, base, index.tree) {
        Err(_) => Err(CheckErr::Memory),
        Ok((base, tree)) => Ok(Judged {
            tree: TypedExpr {
                span,
                ty,
                kind: TypedExprKind::Index(base, tree),
            },
            accessed: index.accessed,
        }),
    }
}

/// The type of `x[i]`, where x has the type `base` and i the type `ty`.
fn element_type(
    setting: Setting,
    state: &State,
    span: Span,
    x: &Expr,
    i: &Expr,
    base: Ty,
    ty: Ty,
) -> Result<Ty, CheckErr>
    ensures { TellsType result (element_type setting state.now span (view x.now) (view i.now) base ty) }
{
    match &x.kind {
        ExprKind::X => register_type(state, span, i),
        ExprKind::Mem => loaded_type(span, 8, ty),
        ExprKind::Name(name) => entry_or_bits(
            span,
            table(setting, state, name.as_str()),
            i,
            base,
            ty,
        ),
        _ => bits_type(span, base, constant_value(i), constant_value(i)),
    }
}

/// The type of `X[i]`.
fn register_type(state: &State, span: Span, i: &Expr) -> Result<Ty, CheckErr>
    ensures { TellsType result (register_type state.now span (view i.now)) }
{
    if lies_in_source(field_of(state, i)) {
        Ok(type_near(false, 32))
    } else {
        Err(CheckErr::Index { span })
    }
}

/// The type of what is loaded, of this width, from an address of the type `ty`.
pub fn loaded_type(span: Span, width: u8, ty: Ty) -> Result<Ty, CheckErr>
    ensures { TellsType result (loaded_type span width ty) }
{
    if goes_into(ty, type_near(false, 32)) {
        Ok(type_near(false, u128::from(width)))
    } else {
        Err(CheckErr::Index { span })
    }
}

/// The type of `x[i]`, where x is a table or a number.
fn entry_or_bits(
    span: Span,
    table: Option<Shape>,
    i: &Expr,
    base: Ty,
    ty: Ty,
) -> Result<Ty, CheckErr>
    ensures { TellsType result (entry_or_bits span table (view i.now) base ty) }
{
    match table {
        None => bits_type(span, base, constant_value(i), constant_value(i)),
        Some(shape) => entry_type(span, shape, i, ty),
    }
}

/// The type of an entry of a table, where the index i has the type `ty`.
fn entry_type(span: Span, shape: Shape, i: &Expr, ty: Ty) -> Result<Ty, CheckErr>
    ensures { TellsType result (entry_type span shape (view i.now) ty) }
{
    if is_always_below(ty, shape.length) {
        return Ok(shape.ty);
    }
    if is_constant_below(constant_value(i), shape.length) {
        return Ok(shape.ty);
    }
    Err(CheckErr::Rom { span })
}

/// Whether the type is unsigned and each of its numbers is below the length.
fn is_always_below(ty: Ty, length: u128) -> bool
    ensures { result ≡ is_always_below ty length }
{
    !ty.signed && ty.width < 128 && 1 << ty.width <= length
}

/// Whether there is a number, and it is from 0 to below the length.
fn is_constant_below(x: Option<Value>, length: u128) -> bool
    ensures { result ≡ is_constant_below (seen_option x) length }
{
    match x {
        None => false,
        Some(x) => !is_negative(x.ty, x.bits) && x.bits.raw < length,
    }
}

/// The number where it is the place of a bit, from 0 to 127.
fn place(x: Value) -> Option<u8>
    ensures { result ≡ place_of (V.seen x).number }
{
    if is_negative(x.ty, x.bits) || 128 <= x.bits.raw {
        None
    } else {
        Some(x.bits.raw as u8)
    }
}

/// The type of bits `high` down to `low` of a number of the type `base`.
fn bits_type(span: Span, base: Ty, high: Option<Value>, low: Option<Value>) -> Result<Ty, CheckErr>
    ensures { TellsType result (bits_type span base (seen_option high) (seen_option low)) }
{
    match (high, low) {
        (Some(high), Some(low)) => bits_between(span, base, high, low),
        _ => Err(CheckErr::Range { span }),
    }
}

fn bits_between(span: Span, base: Ty, high: Value, low: Value) -> Result<Ty, CheckErr>
    ensures { TellsType result (bits_type span base (Some (V.seen high)) (Some (V.seen low))) }
{
    match (place(high), place(low)) {
        (Some(high), Some(low)) => {
            if low <= high && high < base.width {
                Ok(type_near(false, u128::from(high - low) + 1))
            } else {
                Err(CheckErr::Range { span })
            }
        }
        _ => Err(CheckErr::Range { span }),
    }
}

/// `x[h:l]`.
pub fn ranged(
    alloc: Global,
    span: Span,
    x: &Expr,
    h: &Expr,
    l: &Expr,
    both: Pair,
    low: Result<Judged, CheckErr>,
) -> Result<Judged, CheckErr>
    ensures { (r : Result T.Judged Refusal) → Tells low r → Tells result (ranged span (view x.now) (view h.now) (view l.now) (seen_pair both) r) }
{
    match low {
        Err(error) => {
            drop(both);
            Err(error)
        }
        Ok(low) => match range_type(span, x, h, l, both.first.tree.ty, low.tree.ty) {
            Err(error) => {
                drop(both);
                drop(low);
                Err(error)
            }
            Ok(ty) => range_of(alloc, span, ty, both, low),
        },
    }
}

fn range_of(alloc: Global, span: Span, ty: Ty, both: Pair, low: Judged) -> Result<Judged, CheckErr>
    ensures { Tells result (Ok (record { tree = t_range span ty (typed_view both.first.tree) (typed_view both.second.tree) (typed_view low.tree); ty = ty; accessed = low.accessed })) }
{
    match boxed_triple(alloc, both.first.tree, both.second.tree, low.tree) {
        Err(_) => Err(CheckErr::Memory),
        Ok((x, h, tree)) => Ok(Judged {
            tree: TypedExpr {
                span,
                ty,
                kind: TypedExprKind::Range(x, h, tree),
            },
            accessed: low.accessed,
        }),
    }
}

/// The type of `x[h:l]`, where x has the type `base` and l the type `ty`.
fn range_type(span: Span, x: &Expr, h: &Expr, l: &Expr, base: Ty, ty: Ty) -> Result<Ty, CheckErr>
    ensures { TellsType result (range_type span (view x.now) (view h.now) (view l.now) base ty) }
{
    match &x.kind {
        ExprKind::X => Err(CheckErr::Index { span }),
        ExprKind::Mem => loaded_range(span, width_loaded(h, l), ty),
        _ => bits_type(span, base, constant_value(h), constant_value(l)),
    }
}

pub fn loaded_range(span: Span, width: Option<u8>, ty: Ty) -> Result<Ty, CheckErr>
    ensures { TellsType result (loaded_range span width ty) }
{
    match width {
        None => Err(CheckErr::Index { span }),
        Some(width) => loaded_type(span, width, ty),
    }
}

/// The width of `MEM[h:l]` where h is `l+1` or `l+3`.
pub fn width_loaded(h: &Expr, l: &Expr) -> Option<u8>
    ensures { result ≡ width_loaded (view h.now) (view l.now) }
{
    match &h.kind {
        ExprKind::Binary(op, a, by) => width_of_sum(*op, a, by, l),
        _ => None,
    }
}

fn width_of_sum(op: BinOp, a: &Expr, by: &Expr, l: &Expr) -> Option<u8>
    ensures { result ≡ width_of_sum op (view a.now) (view by.now) (view l.now) }
{
    match op {
        BinOp::Add => { if is_same(a, l) { width_by(by) } else { None } }
        _ => None,
    }
}

/// 16 for the literal 1, 32 for the literal 3.
fn width_by(by: &Expr) -> Option<u8>
    ensures { result ≡ width_by (view by.now) }
{
    match &by.kind {
        ExprKind::Literal(_, bits) => {
            let raw = bits.raw;
            if raw == 1 {
                Some(16)
            } else if raw == 3 {
                Some(32)
            } else {
                None
            }
        }
        _ => None,
    }
}
