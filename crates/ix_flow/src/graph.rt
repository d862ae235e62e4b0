ghost use Rattle.std.specs.Prelude.{◌≡◌, ◌<◌, ◌≤◌, true, length, map, nat_eq, get_or, IfOk, IfSome, IfNone};
ghost use Rattle.std.specs.List.{list_any};
ghost use Rattle.ix_mean.specs.Terms.{t_const};
ghost use Rattle.ix_terms.specs.Places.{IsOperation, IsTermAt};
ghost use Rattle.ix_mean.specs.Order.{has_term};
ghost use Rattle.ix_terms.specs.Stores.{at, size, stock_of};
ghost use Rattle.ix_flow.specs.Orders.{terms_at, IsOrder};
ghost use Rattle.ix_flow.specs.Flows.{IsOpOf, IsArgOf, AreOpsOf, target_of, flag_of};
ghost use Rattle.ix_flow.specs.Operands.{IsOperandReady, IsArgReady, IsOpReady, AreOpsReady};

use ix_bits::{Bits, List, Memory, Ty, Value};
use ix_graph::{Arg, Args, Kind, Op};
use ix_terms::{Node, Store};
use std::alloc::Global;

// The place of a place that is in the list.
fn place_in(order: &[u32], k: u32) -> u32
    requires few { length order.now ≤ 256 }
    requires there { list_any (nat_eq k) order.now ≡ true }
    ensures within { result < length order.now }
    ensures is { get_or order.now result 0 ≡ k }
{
    for i in 0..order.len() {
        if order[i] == k {
            return i as u32;
        }
    }
    0
}

// The operation that a term is, by its place in the order.
fn operand(store: &Store, order: &[u32], k: u32) -> Arg
    requires below { k < size (stock_of store.now) }
    requires order { IsOrder (stock_of store.now) order.now }
    requires there { IsOperandReady (stock_of store.now) order.now k }
    ensures { IsArgOf (terms_at (stock_of store.now) order.now) (at (stock_of store.now) k) result }
{
    store.same_as_place();
    Arg::Op(place_in(order, k))
}

// The value of the term at a place, if it is a constant.
fn constant_of(store: &Store, k: u32) -> Option<Value>
    requires { IsTermAt (stock_of store.now) k }
    ensures constant { IfSome result (λ v. at (stock_of store.now) k ≡ t_const v.ty v.bits.raw) }
    ensures operation { IfNone result (IsOperation (at (stock_of store.now) k)) }
{
    match store.node(k) {
        Node::Const(ty, raw) => Some(Value {
            ty,
            bits: Bits {
                raw,
                width: ty.width,
            },
        }),
        Node::Read(_, _)
        | Node::One(_, _, _)
        | Node::Entry(_, _, _)
        | Node::Two(_, _, _, _)
        | Node::Three(_, _, _, _, _) => { None }
    }
}

// The argument that a term is: a constant, or an operation by its place in the order.
fn arg_of(store: &Store, order: &[u32], k: u32) -> Arg
    requires order { IsOrder (stock_of store.now) order.now }
    requires ready { IsArgReady (stock_of store.now) order.now k }
    ensures { IsArgOf (terms_at (stock_of store.now) order.now) (at (stock_of store.now) k) result }
{
    match constant_of(store, k) {
        Some(value) => Arg::Const(value.ty, value.bits),
        None => operand(store, order, k),
    }
}

fn op_with(alloc: Global, kind: Kind, ty: Ty, args: &[Arg]) -> Op
    requires { length args.now ≤ 3 }
    ensures kind { result.kind ≡ kind }
    ensures ty { result.ty ≡ ty }
    ensures args { result.args ≡ args.now }
{
    Op {
        kind,
        args: Args::of(alloc, args),
        ty,
    }
}

// The operation of the term at a place, which is no constant.
fn op_of(alloc: Global, store: &Store, order: &[u32], k: u32) -> Op
    requires order { IsOrder (stock_of store.now) order.now }
    requires ready { IsOpReady (stock_of store.now) order.now k }
    ensures { IsOpOf (terms_at (stock_of store.now) order.now) (at (stock_of store.now) k) result }
{
    match store.node(k) {
        Node::Const(ty, _) => op_with(alloc, Kind::Cast, ty, &[]),
        Node::Read(kind, ty) => op_with(alloc, kind, ty, &[]),
        Node::One(kind, ty, a) => op_with(alloc, kind, ty, &[arg_of(store, order, a)]),
        Node::Entry(table, ty, a) => op_with(
            alloc,
            Kind::Rom(table as u16),
            ty,
            &[arg_of(store, order, a)],
        ),
        Node::Two(kind, ty, a, b) => op_with(
            alloc,
            kind,
            ty,
            &[arg_of(store, order, a), arg_of(store, order, b)],
        ),
        Node::Three(kind, ty, a, b, c) => op_with(
            alloc,
            kind,
            ty,
            &[
                arg_of(store, order, a),
                arg_of(store, order, b),
                arg_of(store, order, c),
            ],
        ),
    }
}

/// The operations of the terms at places, in their order.
pub fn ops_of(alloc: Global, store: &Store, order: &[u32]) -> Result<List<Op>, Memory>
    requires order { IsOrder (stock_of store.now) order.now }
    requires ready { AreOpsReady (stock_of store.now) order.now }
    ensures { IfOk result (AreOpsOf (terms_at (stock_of store.now) order.now) (terms_at (stock_of store.now) order.now)) }
{
    let mut out = Vec::new(alloc);
    for k in order {
        out.push(op_of(alloc, store, order, *k))?;
    }
    Ok(List::from_vec(out))
}

// The target that a kind writes.
fn target_of(kind: &Kind) -> Option<usize>
    ensures { result ≡ target_of kind.now }
{
    match kind {
        Kind::WrMem => Some(0),
        Kind::WrRD => Some(1),
        Kind::WrPC => Some(2),
        Kind::WrCustReg(register) => Some(3 + usize::from(*register)),
        _ => None,
    }
}

// Whether an operation writes a target that a spawned body writes.
fn is_spawned(op: &Op, spawned: &[bool]) -> bool
    ensures { result ≡ flag_of spawned.now op.now }
{
    match target_of(&op.kind) {
        None => false,
        Some(target) => target < spawned.len() && spawned[target],
    }
}

/// For each operation whether it writes a target that a spawned body writes.
pub fn flags_of(alloc: Global, ops: &[Op], spawned: &[bool]) -> Result<List<bool>, Memory>
    ensures { IfOk result (λ flags. flags ≡ map (flag_of spawned.now) ops.now) }
{
    let mut out = Vec::new(alloc);
    for op in ops {
        out.push(is_spawned(op, spawned))?;
    }
    Ok(List::from_vec(out))
}
