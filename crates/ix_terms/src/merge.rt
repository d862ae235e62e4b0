ghost use Rattle.std.specs.Prelude.{◌≡◌, ◌<◌, length, false, true, IfOk};
ghost use Rattle.ix_graph.specs.declared.kind.Kind.TheVariants.{Land, Lnot};
ghost use Rattle.ix_mean.specs.Core.{u1};
ghost use Rattle.ix_mean.specs.Terms.{same_term, make_one, make_two, merge, merge_condition, along};
ghost use Rattle.ix_terms.specs.Stores.{at, size, stock_of, Has};
ghost use Rattle.ix_terms.specs.Places.{IsTermAt, bit_term};

use crate::make::{is_same, make_mux, make_one, make_two, type_at};
use crate::node::same_ty;
use crate::term::u1;
use crate::{Node, Store};
use ix_bits::{BinOp, Memory};
use ix_graph::Kind;

/// Whether the term at a place is the constant 0 or 1 of a condition.
pub fn is_bit(store: &Store, k: u32, bit: bool) -> bool
    requires { k < size (stock_of store.now) }
    ensures { result ≡ same_term (at (stock_of store.now) k) (bit_term bit) }
{
    match store.node(k) {
        Node::Const(ty, raw) => same_ty(ty, u1()) && raw == u128::from(bit),
        Node::Read(_, _)
        | Node::One(_, _, _)
        | Node::Entry(_, _, _)
        | Node::Two(_, _, _, _)
        | Node::Three(_, _, _, _, _) => { false }
    }
}

/// The two ends of a value, merged by a condition.
pub fn merge(store: &mut Store, c: u32, x: u32, y: u32) -> Result<u32, Memory>
    requires condition { IsTermAt (stock_of store.old) c }
    requires first { IsTermAt (stock_of store.old) x }
    requires second { IsTermAt (stock_of store.old) y }
    ensures { IfOk result (λ k. Has (stock_of store.old) (stock_of store.new) k (merge (at (stock_of store.old) c) (at (stock_of store.old) x) (at (stock_of store.old) y))) }
{
    if is_same(store, x, y) {
        return Ok(x);
    }
    let ty = type_at(store, x);
    make_mux(store, ty, c, x, y)
}

/// Both conditions.
pub fn both(store: &mut Store, a: u32, b: u32) -> Result<u32, Memory>
    requires first { IsTermAt (stock_of store.old) a }
    requires second { IsTermAt (stock_of store.old) b }
    ensures { IfOk result (λ k. Has (stock_of store.old) (stock_of store.new) k (make_two Land u1 (at (stock_of store.old) a) (at (stock_of store.old) b))) }
{
    make_two(store, BinOp::Land, u1(), a, b)
}

/// The condition turned round.
pub fn negated(store: &mut Store, a: u32) -> Result<u32, Memory>
    requires { IsTermAt (stock_of store.old) a }
    ensures { IfOk result (λ k. Has (stock_of store.old) (stock_of store.new) k (make_one Lnot u1 (at (stock_of store.old) a))) }
{
    make_one(store, Kind::Lnot, u1(), a)
}

/// The path condition of a branch.
pub fn along(store: &mut Store, p: u32, d: u32) -> Result<u32, Memory>
    requires path { IsTermAt (stock_of store.old) p }
    requires branch { IsTermAt (stock_of store.old) d }
    ensures { IfOk result (λ k. Has (stock_of store.old) (stock_of store.new) k (along (at (stock_of store.old) p) (at (stock_of store.old) d))) }
{
    if is_bit(store, p, true) {
        Ok(d)
    } else {
        both(store, p, d)
    }
}

/// The two ends of a target's condition, merged by a condition.
pub fn merge_condition(store: &mut Store, c: u32, x: u32, y: u32) -> Result<u32, Memory>
    requires condition { IsTermAt (stock_of store.old) c }
    requires first { IsTermAt (stock_of store.old) x }
    requires second { IsTermAt (stock_of store.old) y }
    ensures { IfOk result (λ k. Has (stock_of store.old) (stock_of store.new) k (merge_condition (at (stock_of store.old) c) (at (stock_of store.old) x) (at (stock_of store.old) y))) }
{
    if is_same(store, x, y) {
        return Ok(x);
    }
    let only_first = is_bit(store, x, true) && is_bit(store, y, false);
    if only_first {
        return Ok(c);
    }
    let only_second = is_bit(store, x, false) && is_bit(store, y, true);
    if only_second {
        return negated(store, c);
    }
    if is_bit(store, y, false) {
        return both(store, c, x);
    }
    if is_bit(store, x, false) {
        return unless_and(store, c, y);
    }
    make_mux(store, u1(), c, x, y)
}

// The second condition where the first does not hold.
fn unless_and(store: &mut Store, c: u32, y: u32) -> Result<u32, Memory>
    requires condition { IsTermAt (stock_of store.old) c }
    requires second { IsTermAt (stock_of store.old) y }
    ensures { IfOk result (λ k. Has (stock_of store.old) (stock_of store.new) k (make_two Land u1 (make_one Lnot u1 (at (stock_of store.old) c)) (at (stock_of store.old) y))) }
{
    let n = negated(store, c)?;
    both(store, n, y)
}
