ghost use Rattle.std.specs.Prelude.{◌≡◌, ◌<◌, length, map, IfOk};
ghost use Rattle.ix_mean.specs.Terms.{merge_slots};
ghost use Rattle.ix_terms.specs.Stores.{at, size, stock_of};
ghost use Rattle.ix_terms.specs.Places.{IsTermAt, AreTermsAt, HasAll};

use crate::Store;
use crate::merge::merge;
use ix_bits::Memory;
use std::alloc::Global;

/// The two ends of all slots, merged by a condition.
pub fn merge_slots(
    alloc: Global,
    store: &mut Store,
    c: u32,
    xs: &[u32],
    ys: &[u32],
) -> Result<Vec<u32>, Memory>
    requires condition { IsTermAt (stock_of store.old) c }
    requires first { AreTermsAt (stock_of store.old) xs.now }
    requires second { AreTermsAt (stock_of store.old) ys.now }
    requires count { length xs.now ≡ length ys.now }
    ensures { IfOk result (λ ks. HasAll (stock_of store.old) (stock_of store.new) ks.items (merge_slots (at (stock_of store.old) c) (map (at (stock_of store.old)) xs.now) (map (at (stock_of store.old)) ys.now))) }
{
    let mut out = Vec::new(alloc);
    for k in 0..xs.len() {
        let merged = merge(store, c, xs[k], ys[k])?;
        out.push(merged)?;
    }
    Ok(out)
}
