ghost use Rattle.std.specs.Prelude.{◌≡◌, ◌<◌, map, IfOk, OnOk};
ghost use Rattle.ix_types.specs.Results.{IsCommon};
ghost use Rattle.ix_graph.specs.declared.kind.Kind.TheVariants.{RdMem};
ghost use Rattle.ix_mean.specs.Core.{u1, u32 as word_type};
ghost use Rattle.ix_mean.specs.View.{view_expression, frame_of};
ghost use Rattle.ix_mean.specs.Typing.{IsTypedExpression};
ghost use Rattle.ix_mean.specs.Terms.{t_two, type_of, same_ty, cast_to, make_mux, condition, zero_term, expression_loads};
ghost use Rattle.ix_terms.specs.Stores.{at, size, stock_of, Has};
ghost use Rattle.ix_terms.specs.Places.{IsTermAt, IsPlaced, HasTerm, HasLoads, bit_term};

use crate::make::{cast_to, make_entry, make_mux, make_one, make_two, type_at};
use crate::node::same_ty;
use crate::{Node, Source, Store};
use ix_bits::{BinOp, Memory, Ty};
use ix_graph::Kind;
use ix_mean::ResolvedExpr;

/// The type of a condition.
pub fn u1() -> Ty
    ensures { result ≡ u1 }
{
    Ty {
        signed: false,
        width: 1,
    }
}

/// The type of an address.
pub fn u32_type() -> Ty
    ensures { result ≡ word_type }
{
    Ty {
        signed: false,
        width: 32,
    }
}

/// The constant 0 or 1 of a condition.
pub fn put_bit(store: &mut Store, bit: bool) -> Result<u32, Memory>
    ensures { IfOk result (λ k. Has (stock_of store.old) (stock_of store.new) k (bit_term bit)) }
{
    if bit {
        store.put(Node::Const(u1(), 1))
    } else {
        store.put(Node::Const(u1(), 0))
    }
}

/// A condition: a term that is not of type u 1 is compared with 0.
pub fn condition(store: &mut Store, a: u32) -> Result<u32, Memory>
    requires { IsTermAt (stock_of store.old) a }
    ensures { IfOk result (λ k. Has (stock_of store.old) (stock_of store.new) k (condition (at (stock_of store.old) a))) }
{
    if same_ty(type_at(store, a), u1()) {
        return Ok(a);
    }
    let zero = put_bit(store, false)?;
    make_two(store, BinOp::Ne, u1(), a, zero)
}

// A load on a path.
fn load(store: &mut Store, ty: Ty, a: u32, p: u32) -> Result<u32, Memory>
    requires address { IsTermAt (stock_of store.old) a }
    requires path { p < size (stock_of store.old) }
    ensures { IfOk result (λ k. Has (stock_of store.old) (stock_of store.new) k (t_two RdMem ty (cast_to word_type (at (stock_of store.old) a)) (at (stock_of store.old) p))) }
{
    let address = cast_to(store, u32_type(), a)?;
    store.put(Node::Two(Kind::RdMem, ty, address, p))
}

// A choice by any number.
fn choose(store: &mut Store, ty: Ty, c: u32, a: u32, b: u32) -> Result<u32, Memory>
    requires condition { IsTermAt (stock_of store.old) c }
    requires first { IsTermAt (stock_of store.old) a }
    requires second { IsTermAt (stock_of store.old) b }
    ensures { IfOk result (λ k. Has (stock_of store.old) (stock_of store.new) k (make_mux ty (condition (at (stock_of store.old) c)) (at (stock_of store.old) a) (at (stock_of store.old) b))) }
{
    let test = condition(store, c)?;
    make_mux(store, ty, test, a, b)
}

/// The term of an expression on a path. The terms of its loads are put behind `loads`.
pub fn term(
    source: &Source,
    store: &mut Store,
    loads: &mut Vec<u32>,
    slots: &[u32],
    p: u32,
    e: &ResolvedExpr,
) -> Result<u32, Memory>
    requires placed { IsPlaced source.now (stock_of store.old) slots.now p }
    requires typed { IsTypedExpression (frame_of source.now.types) (view_expression source.now.tables e.now) }
    ensures term { IfOk result (λ k. HasTerm source.now (stock_of store.old) (stock_of store.new) slots.now p (view_expression source.now.tables e.now) k) }
    ensures loads { OnOk result (HasLoads (stock_of store.new) loads.old.items loads.new.items (expression_loads (map (at (stock_of store.old)) slots.now) (at (stock_of store.old) p) (view_expression source.now.tables e.now))) }
{
    match e {
        ResolvedExpr::Const(ty, bits) => store.put(Node::Const(*ty, bits.raw)),
        ResolvedExpr::Slot(k, _) => Ok(slots[*k]),
        ResolvedExpr::Read(kind, ty) => store.put(Node::Read(*kind, *ty)),
        ResolvedExpr::Load(ty, a) => {
            let a = term(source, store, loads, slots, p, a)?;
            let k = load(store, *ty, a, p)?;
            loads.push(k)?;
            Ok(k)
        }
        ResolvedExpr::One(kind, ty, a) => {
            let a = term(source, store, loads, slots, p, a)?;
            make_one(store, *kind, *ty, a)
        }
        ResolvedExpr::Cast(ty, a) => {
            let a = term(source, store, loads, slots, p, a)?;
            cast_to(store, *ty, a)
        }
        ResolvedExpr::Entry(table, ty, a) => {
            let a = term(source, store, loads, slots, p, a)?;
            make_entry(store, *table, *ty, a)
        }
        ResolvedExpr::Two(op, ty, a, b) => {
            let a = term(source, store, loads, slots, p, a)?;
            let b = term(source, store, loads, slots, p, b)?;
            make_two(store, *op, *ty, a, b)
        }
        ResolvedExpr::Choose(ty, c, a, b) => {
            let c = term(source, store, loads, slots, p, c)?;
            let a = term(source, store, loads, slots, p, a)?;
            let b = term(source, store, loads, slots, p, b)?;
            choose(store, *ty, c, a, b)
        }
    }
}
