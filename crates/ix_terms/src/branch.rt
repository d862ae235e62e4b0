ghost use Rattle.std.specs.Prelude.{◌≡◌, ◌<◌, length, IfOk};
ghost use Rattle.ix_mean.specs.Core.{u1};
ghost use Rattle.ix_mean.specs.Typing.{IsOf};
ghost use Rattle.ix_mean.specs.View.{frame_of};
ghost use Rattle.ix_terms.specs.Stores.{at, size, stock_of};
ghost use Rattle.ix_terms.specs.Ends.{IsEnds, IsTest, HasPaths};

use crate::merge::{along, negated};
use crate::{Source, Store, Target};
use ix_bits::Memory;

/// The path conditions of the two branches of a test.
#[derive(Clone, Copy)]
pub struct Paths {
    pub first: u32,
    pub second: u32,
}

// The paths on which a test holds and does not hold.
pub fn split_path(
    source: &Source,
    store: &mut Store,
    slots: &[u32],
    targets: &[Target],
    p: u32,
    t: u32,
) -> Result<Paths, Memory>
    requires ends { IsEnds source.now (stock_of store.old) slots.now targets.now p }
    requires test { IsTest source.now (stock_of store.old) t }
    ensures { IfOk result (λ b. HasPaths source.now (stock_of store.old) (stock_of store.new) slots.now targets.now p t b) }
{
    let first = along(store, p, t)?;
    let turned = negated(store, t)?;
    let second = along(store, p, turned)?;
    Ok(Paths { first, second })
}
