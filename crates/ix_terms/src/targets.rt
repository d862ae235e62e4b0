ghost use Rattle.std.specs.Prelude.{◌≡◌, ◌<◌, length, map, IfOk};
ghost use Rattle.std.specs.List.{AllByRecursion};
ghost use Rattle.ix_mean.specs.Terms.{merge_entry, merge_targets};
ghost use Rattle.ix_terms.specs.Stores.{at, size, stock_of, Has};
ghost use Rattle.ix_terms.specs.Places.{IsTermAt};
ghost use Rattle.ix_terms.specs.Targets.{entry_at, given, IsTargetAt, HasEntry, HasTargets};

use crate::Store;
use crate::merge::{is_bit, merge, merge_condition};
use ix_bits::Memory;
use std::alloc::Global;

/// Under which condition a target is written, and with what, by the places of the terms.
#[derive(Clone, Copy)]
pub struct Target {
    pub condition: u32,
    pub value: u32,
    pub address: u32,
}

// Of two values the one that is written, or both merged.
fn given(
    store: &mut Store,
    none_first: bool,
    none_second: bool,
    c: u32,
    x: u32,
    y: u32,
) -> Result<u32, Memory>
    requires condition { IsTermAt (stock_of store.old) c }
    requires first { IsTermAt (stock_of store.old) x }
    requires second { IsTermAt (stock_of store.old) y }
    ensures { IfOk result (λ k. Has (stock_of store.old) (stock_of store.new) k (given none_first none_second (at (stock_of store.old) c) (at (stock_of store.old) x) (at (stock_of store.old) y))) }
{
    if none_first {
        Ok(y)
    } else if none_second {
        Ok(x)
    } else {
        merge(store, c, x, y)
    }
}

/// The two ends of a target, merged by a condition.
pub fn merge_entry(store: &mut Store, c: u32, x: Target, y: Target) -> Result<Target, Memory>
    requires condition { IsTermAt (stock_of store.old) c }
    requires first { IsTargetAt (stock_of store.old) x }
    requires second { IsTargetAt (stock_of store.old) y }
    ensures { IfOk result (λ t. HasEntry (stock_of store.old) (stock_of store.new) t (merge_entry (at (stock_of store.old) c) (entry_at (stock_of store.old) x) (entry_at (stock_of store.old) y))) }
{
    let none_first = is_bit(store, x.condition, false);
    let none_second = is_bit(store, y.condition, false);
    let condition = merge_condition(store, c, x.condition, y.condition)?;
    let value = given(store, none_first, none_second, c, x.value, y.value)?;
    let address = given(store, none_first, none_second, c, x.address, y.address)?;
    Ok(Target {
        condition,
        value,
        address,
    })
}

/// The two ends of all targets, merged by a condition.
pub fn merge_targets(
    alloc: Global,
    store: &mut Store,
    c: u32,
    xs: &[Target],
    ys: &[Target],
) -> Result<Vec<Target>, Memory>
    requires condition { IsTermAt (stock_of store.old) c }
    requires first { AllByRecursion (IsTargetAt (stock_of store.old)) xs.now }
    requires second { AllByRecursion (IsTargetAt (stock_of store.old)) ys.now }
    requires count { length xs.now ≡ length ys.now }
    ensures { IfOk result (λ es. HasTargets (stock_of store.old) (stock_of store.new) es.items (merge_targets (at (stock_of store.old) c) (map (entry_at (stock_of store.old)) xs.now) (map (entry_at (stock_of store.old)) ys.now))) }
{
    let mut out = Vec::new(alloc);
    for k in 0..xs.len() {
        let x = xs[k];
        let y = ys[k];
        let merged = merge_entry(store, c, x, y)?;
        out.push(merged)?;
    }
    Ok(out)
}
