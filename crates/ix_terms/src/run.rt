ghost use Rattle.std.specs.Prelude.{◌≡◌, ◌<◌, map, IfOk, OnOk};
ghost use Rattle.ix_mean.specs.Core.{st_set, st_write};
ghost use Rattle.ix_mean.specs.Terms.{run_terms, merge_terms, expression_loads, loads as loads_of};
ghost use Rattle.ix_mean.specs.Typing.{IsTypedExpression, IsTypedStatement};
ghost use Rattle.ix_mean.specs.declared.resolved.ResolvedStmt.{Block};
ghost use Rattle.ix_mean.specs.View.{view_expression, view_statement, frame_of};
ghost use Rattle.ix_terms.specs.Stores.{at, size, stock_of};
ghost use Rattle.ix_terms.specs.Places.{IsPlaced, HasValue, HasLoads};
ghost use Rattle.ix_terms.specs.Ends.{ends_at, IsEnds, HasEnds, HasBeside, IsCopy, IsTest, HasTest, HasMerged, both_ends, both_loads, first_of, second_of};

use crate::branch::{Paths, split_path};
use crate::make::{cast_to, constant_at};
use crate::slots::merge_slots;
use crate::targets::merge_targets;
use crate::term::{condition, put_bit, term, u32_type};
use crate::{Source, Store, Target};
use ix_bits::{Memory, Ty};
use ix_mean::{ResolvedExpr, ResolvedStmt, Writing, holds};
use std::alloc::Global;

// Sets a slot to the value of an expression.
fn set(
    source: &Source,
    store: &mut Store,
    loads: &mut Vec<u32>,
    slots: &mut Vec<u32>,
    targets: &[Target],
    p: u32,
    k: usize,
    ty: Ty,
    e: &ResolvedExpr,
) -> Result<(), Memory>
    requires ends { IsEnds source.now (stock_of store.old) slots.old.items targets.now p }
    requires typed { IsTypedStatement (frame_of source.now.types) (st_set k ty (view_expression source.now.tables e.now)) }
    ensures ends { OnOk result (HasEnds source.now (stock_of store.old) (stock_of store.new) p (run_terms (at (stock_of store.old) p) (st_set k ty (view_expression source.now.tables e.now)) (ends_at (stock_of store.old) slots.old.items targets.now)) slots.new.items targets.now) }
    ensures loads { OnOk result (HasLoads (stock_of store.new) loads.old.items loads.new.items (loads_of (at (stock_of store.old) p) (st_set k ty (view_expression source.now.tables e.now)) (ends_at (stock_of store.old) slots.old.items targets.now))) }
{
    let a = term(source, store, loads, slots.as_slice(), p, e)?;
    let v = cast_to(store, ty, a)?;
    slots[k] = v;
    Ok(())
}

// A value of an expression in a type.
fn valued(
    source: &Source,
    store: &mut Store,
    loads: &mut Vec<u32>,
    slots: &[u32],
    p: u32,
    ty: Ty,
    e: &ResolvedExpr,
) -> Result<u32, Memory>
    requires placed { IsPlaced source.now (stock_of store.old) slots.now p }
    requires typed { IsTypedExpression (frame_of source.now.types) (view_expression source.now.tables e.now) }
    ensures value { IfOk result (λ k. HasValue source.now (stock_of store.old) (stock_of store.new) slots.now p ty (view_expression source.now.tables e.now) k) }
    ensures loads { OnOk result (HasLoads (stock_of store.new) loads.old.items loads.new.items (expression_loads (map (at (stock_of store.old)) slots.now) (at (stock_of store.old) p) (view_expression source.now.tables e.now))) }
{
    let a = term(source, store, loads, slots, p, e)?;
    cast_to(store, ty, a)
}

// Writes a target.
fn write(
    source: &Source,
    store: &mut Store,
    loads: &mut Vec<u32>,
    slots: &[u32],
    targets: &mut Vec<Target>,
    p: u32,
    w: &Writing,
) -> Result<(), Memory>
    requires ends { IsEnds source.now (stock_of store.old) slots.now targets.old.items p }
    requires typed { IsTypedStatement (frame_of source.now.types) (st_write w.now.target w.now.ty (view_expression source.now.tables w.now.value) (view_expression source.now.tables w.now.address)) }
    ensures ends { OnOk result (HasEnds source.now (stock_of store.old) (stock_of store.new) p (run_terms (at (stock_of store.old) p) (st_write w.now.target w.now.ty (view_expression source.now.tables w.now.value) (view_expression source.now.tables w.now.address)) (ends_at (stock_of store.old) slots.now targets.old.items)) slots.now targets.new.items) }
    ensures loads { OnOk result (HasLoads (stock_of store.new) loads.old.items loads.new.items (loads_of (at (stock_of store.old) p) (st_write w.now.target w.now.ty (view_expression source.now.tables w.now.value) (view_expression source.now.tables w.now.address)) (ends_at (stock_of store.old) slots.now targets.old.items))) }
{
    let address = valued(source, store, loads, slots, p, u32_type(), &w.address)?;
    let value = valued(source, store, loads, slots, p, w.ty, &w.value)?;
    let condition = put_bit(store, true)?;
    targets[w.target] = Target {
        condition,
        value,
        address,
    };
    Ok(())
}

/// What a statement does on a path, on terms in the store. The terms of its loads are put behind `loads`.
#[cycle(runs)]
pub fn run(
    alloc: Global,
    source: &Source,
    store: &mut Store,
    loads: &mut Vec<u32>,
    slots: &mut Vec<u32>,
    targets: &mut Vec<Target>,
    p: u32,
    whole: &ResolvedStmt,
) -> Result<(), Memory>
    requires ends { IsEnds source.now (stock_of store.old) slots.old.items targets.old.items p }
    requires typed { IsTypedStatement (frame_of source.now.types) (view_statement source.now.tables whole.now) }
    ensures ends { OnOk result (HasEnds source.now (stock_of store.old) (stock_of store.new) p (run_terms (at (stock_of store.old) p) (view_statement source.now.tables whole.now) (ends_at (stock_of store.old) slots.old.items targets.old.items)) slots.new.items targets.new.items) }
    ensures loads { OnOk result (HasLoads (stock_of store.new) loads.old.items loads.new.items (loads_of (at (stock_of store.old) p) (view_statement source.now.tables whole.now) (ends_at (stock_of store.old) slots.old.items targets.old.items))) }
{
    match whole {
        ResolvedStmt::Block(all) => run_all(
            alloc,
            source,
            store,
            loads,
            slots,
            targets,
            p,
            all.as_slice(),
        ),
        ResolvedStmt::Set(k, ty, e) => set(
            source,
            store,
            loads,
            slots,
            targets.as_slice(),
            p,
            *k,
            *ty,
            e,
        ),
        ResolvedStmt::Write(w) => write(source, store, loads, slots.as_slice(), targets, p, w),
        ResolvedStmt::If(c, x, y) => {
            let t = tested(
                source,
                store,
                loads,
                slots.as_slice(),
                targets.as_slice(),
                p,
                c,
            )?;
            match constant_at(store, t) {
                Some(v) => {
                    if holds(v) {
                        run(alloc, source, store, loads, slots, targets, p, x)
                    } else {
                        run(alloc, source, store, loads, slots, targets, p, y)
                    }
                }
                None => {
                    let ends = branches(
                        alloc,
                        source,
                        store,
                        loads,
                        slots.as_slice(),
                        targets.as_slice(),
                        p,
                        t,
                        whole,
                    )?;
                    *slots = ends.slots;
                    *targets = ends.targets;
                    Ok(())
                }
            }
        }
        ResolvedStmt::Spawn(x) => run(alloc, source, store, loads, slots, targets, p, x),
    }
}

// What the statements of a block do, in order.
#[cycle(runs)]
pub fn run_all(
    alloc: Global,
    source: &Source,
    store: &mut Store,
    loads: &mut Vec<u32>,
    slots: &mut Vec<u32>,
    targets: &mut Vec<Target>,
    p: u32,
    all: &[ResolvedStmt],
) -> Result<(), Memory>
    requires ends { IsEnds source.now (stock_of store.old) slots.old.items targets.old.items p }
    requires typed { IsTypedStatement (frame_of source.now.types) (view_statement source.now.tables (Block all.now)) }
    ensures ends { OnOk result (HasEnds source.now (stock_of store.old) (stock_of store.new) p (run_terms (at (stock_of store.old) p) (view_statement source.now.tables (Block all.now)) (ends_at (stock_of store.old) slots.old.items targets.old.items)) slots.new.items targets.new.items) }
    ensures loads { OnOk result (HasLoads (stock_of store.new) loads.old.items loads.new.items (loads_of (at (stock_of store.old) p) (view_statement source.now.tables (Block all.now)) (ends_at (stock_of store.old) slots.old.items targets.old.items))) }
{
    for x in all {
        run(alloc, source, store, loads, slots, targets, p, x)?;
    }
    Ok(())
}

/// A state by places.
#[derive(Drop)]
pub struct Ends {
    pub slots: Vec<u32>,
    pub targets: Vec<Target>,
}

// What a statement does to a copy of the state on one path; `other` is a path on which the state is to stand.
#[cycle(runs)]
fn beside(
    alloc: Global,
    source: &Source,
    store: &mut Store,
    loads: &mut Vec<u32>,
    slots: &[u32],
    targets: &[Target],
    p: u32,
    other: u32,
    x: &ResolvedStmt,
) -> Result<Ends, Memory>
    requires ends { IsEnds source.now (stock_of store.old) slots.now targets.now p }
    requires others { IsEnds source.now (stock_of store.old) slots.now targets.now other }
    requires typed { IsTypedStatement (frame_of source.now.types) (view_statement source.now.tables x.now) }
    ensures ends { IfOk result (λ e. HasBeside source.now (stock_of store.old) (stock_of store.new) slots.now targets.now other p (run_terms (at (stock_of store.old) p) (view_statement source.now.tables x.now) (ends_at (stock_of store.old) slots.now targets.now)) e.slots.items e.targets.items) }
    ensures loads { OnOk result (HasLoads (stock_of store.new) loads.old.items loads.new.items (loads_of (at (stock_of store.old) p) (view_statement source.now.tables x.now) (ends_at (stock_of store.old) slots.now targets.now))) }
{
    let mut ends = copied(alloc, slots, targets)?;
    run(
        alloc,
        source,
        store,
        loads,
        &mut ends.slots,
        &mut ends.targets,
        p,
        x,
    )?;
    Ok(ends)
}

fn copied(alloc: Global, slots: &[u32], targets: &[Target]) -> Result<Ends, Memory>
    ensures { IfOk result (λ e. IsCopy slots.now targets.now e.slots.items e.targets.items) }
{
    let slots = Vec::from_slice(alloc, slots)?;
    let targets = Vec::from_slice(alloc, targets)?;
    Ok(Ends { slots, targets })
}

// The condition of an `if`.
fn tested(
    source: &Source,
    store: &mut Store,
    loads: &mut Vec<u32>,
    slots: &[u32],
    targets: &[Target],
    p: u32,
    c: &ResolvedExpr,
) -> Result<u32, Memory>
    requires ends { IsEnds source.now (stock_of store.old) slots.now targets.now p }
    requires typed { IsTypedExpression (frame_of source.now.types) (view_expression source.now.tables c.now) }
    ensures test { IfOk result (λ t. HasTest source.now (stock_of store.old) (stock_of store.new) slots.now targets.now p (view_expression source.now.tables c.now) t) }
    ensures loads { OnOk result (HasLoads (stock_of store.new) loads.old.items loads.new.items (expression_loads (map (at (stock_of store.old)) slots.now) (at (stock_of store.old) p) (view_expression source.now.tables c.now))) }
{
    let a = term(source, store, loads, slots, p, c)?;
    condition(store, a)
}

// Both branches, and their ends merged.
#[cycle(runs)]
fn branches(
    alloc: Global,
    source: &Source,
    store: &mut Store,
    loads: &mut Vec<u32>,
    slots: &[u32],
    targets: &[Target],
    p: u32,
    t: u32,
    whole: &ResolvedStmt,
) -> Result<Ends, Memory>
    requires ends { IsEnds source.now (stock_of store.old) slots.now targets.now p }
    requires test { IsTest source.now (stock_of store.old) t }
    requires typed { IsTypedStatement (frame_of source.now.types) (view_statement source.now.tables whole.now) }
    ensures ends { IfOk result (λ e. HasEnds source.now (stock_of store.old) (stock_of store.new) p (both_ends (at (stock_of store.old) p) (at (stock_of store.old) t) (first_of (view_statement source.now.tables whole.now)) (second_of (view_statement source.now.tables whole.now)) (ends_at (stock_of store.old) slots.now targets.now)) e.slots.items e.targets.items) }
    ensures loads { OnOk result (HasLoads (stock_of store.new) loads.old.items loads.new.items (both_loads (at (stock_of store.old) p) (at (stock_of store.old) t) (first_of (view_statement source.now.tables whole.now)) (second_of (view_statement source.now.tables whole.now)) (ends_at (stock_of store.old) slots.now targets.now))) }
{
    match whole {
        ResolvedStmt::If(_, x, y) => {
            let b = split_path(source, store, slots, targets, p, t)?;
            let first = beside(
                alloc, source, store, loads, slots, targets, b.first, b.second, x,
            )?;
            let second = beside(
                alloc, source, store, loads, slots, targets, b.second, b.second, y,
            )?;
            joined(alloc, source, store, t, b, &first, &second)
        }
        ResolvedStmt::Block(_)
        | ResolvedStmt::Set(_, _, _)
        | ResolvedStmt::Write(_)
        | ResolvedStmt::Spawn(_) => Err(Memory),
    }
}

// The ends of both branches, merged.
fn joined(
    alloc: Global,
    source: &Source,
    store: &mut Store,
    t: u32,
    b: Paths,
    first: &Ends,
    second: &Ends,
) -> Result<Ends, Memory>
    requires test { IsTest source.now (stock_of store.old) t }
    requires first { IsEnds source.now (stock_of store.old) first.now.slots.items first.now.targets.items b.first }
    requires second { IsEnds source.now (stock_of store.old) second.now.slots.items second.now.targets.items b.second }
    ensures { IfOk result (λ e. HasMerged (stock_of store.old) (stock_of store.new) (merge_terms (at (stock_of store.old) t) (ends_at (stock_of store.old) first.now.slots.items first.now.targets.items) (ends_at (stock_of store.old) second.now.slots.items second.now.targets.items)) e.slots.items e.targets.items) }
{
    let slots = merge_slots(
        alloc,
        store,
        t,
        first.slots.as_slice(),
        second.slots.as_slice(),
    )?;
    let targets = merge_targets(
        alloc,
        store,
        t,
        first.targets.as_slice(),
        second.targets.as_slice(),
    )?;
    Ok(Ends { slots, targets })
}
