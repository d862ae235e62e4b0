ghost use Rattle.std.specs.Prelude.{◌≡◌, ◌<◌, ◌≤◌, length, map, IfOk, OnOk};
ghost use Rattle.std.specs.List.{AllByRecursion};
ghost use Rattle.ix_mean.specs.Order.{write_root, write_roots};
ghost use Rattle.ix_mean.specs.Typing.{IsTypedStatement};
ghost use Rattle.ix_mean.specs.View.{view_statements, frame_of};
ghost use Rattle.ix_terms.specs.Stores.{at, size, stock_of, Has};
ghost use Rattle.ix_terms.specs.Targets.{entry_at, IsBelow};
ghost use Rattle.ix_flow.specs.Orders.{terms_at, IsOrder};
ghost use Rattle.ix_flow.specs.Operands.{AreOpsReady};
ghost use Rattle.ix_flow.specs.Flows.{FlowsTo, IsBuilt};
ghost use Rattle.ix_flow.specs.Rooted.{HasMore, HasRoots, root_terms};

use crate::FlowErr;
use crate::graph::{flags_of, ops_of};
use crate::order::visit_all;
use ix_bits::Memory;
use ix_graph::{Graph, Kind};
use ix_mean::ResolvedStmt;
use ix_terms::{Effect, Node, Source, Store, Target, effect_of, is_bit, u1};
use std::alloc::Global;

// The write of a target by its number: memory, rd, the program counter, and the custom registers.
fn put_write(store: &mut Store, number: usize, target: Target) -> Result<u32, Memory>
    requires below { IsBelow (size (stock_of store.old)) target }
    requires few { number ≤ 18 }
    ensures { IfOk result (λ k. Has (stock_of store.old) (stock_of store.new) k (write_root number (entry_at (stock_of store.old) target))) }
{
    let Target {
        condition,
        value,
        address,
    } = target;
    match number {
        0 => store.put(Node::Three(Kind::WrMem, u1(), address, value, condition)),
        1 => store.put(Node::Two(Kind::WrRD, u1(), value, condition)),
        2 => store.put(Node::Two(Kind::WrPC, u1(), value, condition)),
        _ => store.put(Node::Two(Kind::WrCustReg((number - 3) as u8), u1(), value, condition)),
    }
}

// Puts the write of a target behind the roots, if it may be written.
fn root(
    store: &mut Store,
    roots: &mut Vec<u32>,
    number: usize,
    target: Target,
) -> Result<(), Memory>
    requires below { IsBelow (size (stock_of store.old)) target }
    requires few { number ≤ 18 }
    ensures { OnOk result (HasMore (stock_of store.old) (stock_of store.new) roots.old.items roots.new.items (root_terms number (entry_at (stock_of store.old) target))) }
{
    if is_bit(store, target.condition, false) {
        return Ok(());
    }
    let write = put_write(store, number, target)?;
    roots.push(write)?;
    Ok(())
}

// Puts the writes of the targets that may be written behind the roots.
fn roots_of(store: &mut Store, roots: &mut Vec<u32>, targets: &[Target]) -> Result<(), Memory>
    requires below { AllByRecursion (IsBelow (size (stock_of store.old))) targets.now }
    requires few { length targets.now ≤ 19 }
    ensures { OnOk result (HasMore (stock_of store.old) (stock_of store.new) roots.old.items roots.new.items (write_roots 0 (map (entry_at (stock_of store.old)) targets.now))) }
{
    for number in 0..targets.len() {
        root(store, roots, number, targets[number])?;
    }
    Ok(())
}

// The graph of the operations at places.
fn built(alloc: Global, store: Store, order: &[u32], spawned: &[bool]) -> Result<Graph, Memory>
    requires order { IsOrder (stock_of store) order.now }
    requires ready { AreOpsReady (stock_of store) order.now }
    ensures { IfOk result (IsBuilt (stock_of store) (terms_at (stock_of store) order.now) spawned.now) }
{
    let ops = ops_of(alloc, &store, order)?;
    let flags = flags_of(alloc, ops.as_slice(), spawned)?;
    Ok(Graph {
        ops,
        spawned: flags,
        tables: store.into_tables(),
    })
}

/// A store, and the places of the roots of a behaviour's graph.
#[derive(Drop)]
pub struct Roots {
    pub store: Store,
    pub roots: Vec<u32>,
}

// The roots of a behaviour: the loads, and the writes of the targets that may be written.
fn rooted(alloc: Global, source: &Source, body: &[ResolvedStmt]) -> Result<Roots, Memory>
    requires typed { IsTypedStatement (frame_of source.now.types) (view_statements source.now.tables body.now) }
    requires few_targets { length source.now.types.targets ≤ 19 }
    ensures { IfOk result (λ r. HasRoots source.now (view_statements source.now.tables body.now) (stock_of r.store) r.roots.items) }
{
    let effect = effect_of(alloc, source, body)?;
    let Effect {
        store,
        loads,
        targets,
    } = effect;
    let mut store = store;
    let mut roots = loads;
    roots_of(&mut store, &mut roots, targets.as_slice())?;
    Ok(Roots { store, roots })
}

/// The operation graph of a resolved behaviour: the distinct subterms of its roots that are no constants, each behind its
/// arguments, in postorder of their first occurrence. `spawned` has a flag for each target.
pub fn graph_of_resolved(
    alloc: Global,
    source: &Source,
    body: &[ResolvedStmt],
    spawned: &[bool],
) -> Result<Graph, FlowErr>
    requires typed { IsTypedStatement (frame_of source.now.types) (view_statements source.now.tables body.now) }
    requires few_targets { length source.now.types.targets ≤ 19 }
    requires few_tables { length source.now.tables ≤ 65536 }
    ensures { FlowsTo source.now (view_statements source.now.tables body.now) spawned.now result }
{
    match rooted(alloc, source, body) {
        Err(_) => Err(FlowErr::Memory),
        Ok(rooted) => {
            let Roots { store, roots } = rooted;
            let mut order = Vec::new(alloc);
            match visit_all(alloc, &store, &mut order, roots.as_slice()) {
                Err(error) => Err(error),
                Ok(()) => match built(alloc, store, order.as_slice(), spawned) {
                    Ok(graph) => Ok(graph),
                    Err(_) => Err(FlowErr::Memory),
                },
            }
        }
    }
}
