//! Amounts that move along trees of tight steps, without a new search.

ghost use Rattle.std.specs.Prelude.{◌≡◌, ◌+◌, ◌<◌, ◌≤◌, length, slice_index, sum_by, IfOk, IfSome, IsTrue, All};
ghost use Rattle.ix_sheet.specs.Schedules.{IsValidProblem};
ghost use Rattle.ix_sheet.specs.Bounds.{IsBoundOf};
ghost use Rattle.ix_residual.specs.Residuals.{need_of};
ghost use Rattle.ix_solve.specs.Forests.{AreTouching, IsForest};
ghost use Rattle.ix_solve.specs.State.{IsOnWay, LeadsTo, are_carried};

use crate::ends::{needs, spares};
use crate::forest::{Forest, Walk, grown, way};
use crate::network::Network;
use ix_bits::{List, Memory};
use ix_residual::{Path, Residual};
use ix_sheet::Problem;
use std::alloc::Global;

// whether all that the steps go against carries an amount
fn is_carried(steps: &[(u32, bool)], amounts: &[u64]) -> bool
    requires { All (λ s. s.0 < length amounts.now) steps.now }
    ensures { result ≡ are_carried amounts.now steps.now }
{
    'steps: for (place, along) in steps {
        if !*along && amounts[*place as usize] == 0 {
            return false;
        }
    }
    true
}

// the way along the trees to a node, if an amount can move along it
fn open_path(
    alloc: Global,
    forest: &Forest,
    residual: &Residual,
    target: usize,
    network: &Network,
    times: &[u8],
) -> Result<Option<Path>, Memory>
    requires forest { IsForest network.now (slice_index times.now) forest.now }
    requires left { length residual.now.left ≡ network.now.root + 1 }
    requires amounts { length residual.now.amounts ≡ network.now.bounds }
    requires target { target ≤ network.now.root }
    ensures { IfOk result (λ found. IfSome found (LeadsTo network.now (slice_index times.now) residual.now target)) }
{
    let left = residual.left.as_slice();
    if !needs(left, target) {
        return Ok(None);
    }
    let Some(Walk { source, steps }) = way(alloc, forest, target, network, times)? else {
        return Ok(None);
    };
    if !spares(left, source as usize) {
        return Ok(None);
    }
    if !is_carried(steps.as_slice(), residual.amounts.as_slice()) {
        return Ok(None);
    }
    Ok(Some(Path { steps }))
}

// moves amounts along the ways of a forest, and tells whether there was one
fn serve(
    alloc: Global,
    p: &Problem,
    network: &Network,
    times: &[u8],
    forest: &Forest,
    residual: &mut Residual,
    paths: &mut List<Path>,
) -> Result<bool, Memory>
    requires valid { IsValidProblem p.now }
    requires of { All (IsBoundOf p.now) residual.old.bounds }
    requires forest { IsForest network.now (slice_index times.now) forest.now }
    requires way { IsOnWay p.now residual.old.bounds network.now (slice_index times.now) residual.old paths.old }
    ensures way { IfOk result (λ _. IsOnWay p.now residual.old.bounds network.now (slice_index times.now) residual.new paths.new) }
    ensures less { IfOk result (λ _. sum_by need_of residual.new.left ≤ sum_by need_of residual.old.left) }
    ensures moved { IfOk result (λ moved. IsTrue moved → sum_by need_of residual.new.left < sum_by need_of residual.old.left) }
{
    let mut moved = false;
    'targets: for target in 0..p.ops.len() + 1 {
        if let Some(path) = open_path(alloc, forest, residual, target, network, times)? {
            residual.augment(&path);
            paths.push(path)?;
            moved = true;
        }
    }
    Ok(moved)
}

/// Moves amounts along tight steps, as long as trees of them lead from nodes that have to spare to nodes that need.
pub fn exhaust(
    alloc: Global,
    p: &Problem,
    network: &Network,
    touching: &[List<u32>],
    times: &[u8],
    residual: &mut Residual,
    paths: &mut List<Path>,
) -> Result<(), Memory>
    requires valid { IsValidProblem p.now }
    requires of { All (IsBoundOf p.now) residual.old.bounds }
    requires touching { AreTouching network.now.root network.now.bounds touching.now }
    requires times { length times.now ≡ network.now.root + 1 }
    requires way { IsOnWay p.now residual.old.bounds network.now (slice_index times.now) residual.old paths.old }
    ensures way { IfOk result (λ _. IsOnWay p.now residual.old.bounds network.now (slice_index times.now) residual.new paths.new) }
    ensures less { IfOk result (λ _. sum_by need_of residual.new.left ≤ sum_by need_of residual.old.left) }
{
    'forests: loop {
        let left = residual.left.as_slice();
        let amounts = residual.amounts.as_slice();
        let forest = grown(alloc, network, touching, times, left, amounts)?;
        if !serve(alloc, p, network, times, &forest, residual, paths)? {
            return Ok(());
        }
    }
}
