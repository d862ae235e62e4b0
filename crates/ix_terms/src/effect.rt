ghost use Rattle.std.specs.Prelude.{◌≡◌, [], map, IfOk};
ghost use Rattle.ix_mean.specs.Core.{u32 as word_type};
ghost use Rattle.ix_mean.specs.Effects.{zero_of_type, no_entry};
ghost use Rattle.ix_mean.specs.Typing.{IsTypedStatement};
ghost use Rattle.ix_mean.specs.View.{view_statements, frame_of};
ghost use Rattle.ix_terms.specs.Stores.{stock_of};
ghost use Rattle.ix_terms.specs.Places.{HasAll};
ghost use Rattle.ix_terms.specs.Targets.{HasEntry, HasTargets};
ghost use Rattle.ix_terms.specs.Effected.{HasStart, IsStarted, HasEffect};

use crate::merges::asked;
use crate::run::{Ends, run_all};
use crate::term::{put_bit, u32_type};
use crate::{Node, Source, Store, Target};
use ix_bits::{Bits, List, Memory, Ty};
use ix_mean::ResolvedStmt;
use std::alloc::Global;

/// What a behaviour does, on terms: the store of the terms, the places of the loads in their order, and the targets.
#[derive(Drop)]
pub struct Effect {
    pub store: Store,
    pub loads: Vec<u32>,
    pub targets: Vec<Target>,
}

/// What the statements of a behaviour do, from a start at which each slot is 0 and nothing is written. The time is linear
/// in the statements, but for a comparison of all slots at each `if`. It answers `Memory` past 4 * 10^9 terms too, and where
/// the `if`s would compare more than 2^27 ends of slots and targets.
pub fn effect_of(alloc: Global, source: &Source, body: &[ResolvedStmt]) -> Result<Effect, Memory>
    requires { IsTypedStatement (frame_of source.now.types) (view_statements source.now.tables body.now) }
    ensures { IfOk result (HasEffect source.now (view_statements source.now.tables body.now)) }
{
    asked(source, body)?;
    let tables = copied(alloc, source.tables.as_slice())?;
    let mut store = Store::new(alloc, tables);
    let mut loads = Vec::new(alloc);
    let p = put_bit(&mut store, true)?;
    let mut ends = start(alloc, source, &mut store, p)?;
    run_all(
        alloc,
        source,
        &mut store,
        &mut loads,
        &mut ends.slots,
        &mut ends.targets,
        p,
        body,
    )?;
    Ok(Effect {
        store,
        loads,
        targets: ends.targets,
    })
}

// A copy of tables.
fn copied(alloc: Global, tables: &[List<Bits>]) -> Result<List<List<Bits>>, Memory>
    ensures { IfOk result (λ list. list ≡ tables.now) }
{
    let mut out = Vec::new(alloc);
    for table in tables {
        let copy = List::from_slice(alloc, table.as_slice())?;
        out.push(copy)?;
    }
    Ok(List::from_vec(out))
}

// The slots and targets at the start.
fn start(alloc: Global, source: &Source, store: &mut Store, p: u32) -> Result<Ends, Memory>
    requires { HasStart source.now (stock_of store.old) p }
    ensures { IfOk result (λ e. IsStarted source.now (stock_of store.old) (stock_of store.new) p e) }
{
    let slots = start_slots(alloc, store, source.types.slots.as_slice())?;
    let targets = start_targets(alloc, store, source.types.targets.as_slice())?;
    Ok(Ends { slots, targets })
}

// A zero of each type.
fn start_slots(alloc: Global, store: &mut Store, types: &[Ty]) -> Result<Vec<u32>, Memory>
    ensures { IfOk result (λ ks. HasAll (stock_of store.old) (stock_of store.new) ks.items (map zero_of_type types.now)) }
{
    let mut out = Vec::new(alloc);
    for ty in types {
        let zero = store.put(Node::Const(*ty, 0))?;
        out.push(zero)?;
    }
    Ok(out)
}

// A target of each type that is not written.
fn start_targets(alloc: Global, store: &mut Store, types: &[Ty]) -> Result<Vec<Target>, Memory>
    ensures { IfOk result (λ es. HasTargets (stock_of store.old) (stock_of store.new) es.items (map no_entry types.now)) }
{
    let mut out = Vec::new(alloc);
    for ty in types {
        let target = unwritten(store, *ty)?;
        out.push(target)?;
    }
    Ok(out)
}

// A target that is not written.
fn unwritten(store: &mut Store, ty: Ty) -> Result<Target, Memory>
    ensures { IfOk result (λ t. HasEntry (stock_of store.old) (stock_of store.new) t (no_entry ty)) }
{
    let condition = put_bit(store, false)?;
    let value = store.put(Node::Const(ty, 0))?;
    let address = store.put(Node::Const(u32_type(), 0))?;
    Ok(Target {
        condition,
        value,
        address,
    })
}
