//! Amounts on bounds, and the balances that they do not meet yet.

ghost use Rattle.std.specs.Prelude.{◌≡◌, ◌≢◌, ◌+◌, ◌<◌, ◌≤◌, ◌<ℤ◌, pos, length, min, IfOk, All, slice_index_or};
ghost use Rattle.ix_sheet.specs.Schedules.{IsValidProblem};
ghost use Rattle.ix_residual.specs.Residuals.{CanAugment, augmented, before, behind, from_of, to_of, need_of, settled, spare_of};
ghost use Rattle.ix_residual.specs.Balances.{fresh};

use crate::balance::balances;
use crate::moves::{move_along, room};
use ix_bits::{List, Memory};
use ix_sheet::{Bound, Problem};
use std::alloc::Global;

/// A path by its steps: the place of a bound, and whether the bound is gone along (true) or against (false).
#[derive(Debug, Drop)]
pub struct Path {
    pub steps: List<(u32, bool)>,
}

/// A flow on its way.
#[derive(Debug, Drop)]
pub struct Residual {
    /// The bounds that amounts may go along.
    pub bounds: List<Bound>,
    /// The amount of each bound.
    pub amounts: List<u64>,
    /// What the amounts do not meet yet of the balance of each operation, and last of the root's.
    pub left: List<i64>,
}

impl Residual {
    /// No amount has moved yet, and the whole balances of the problem are left.
    pub fn new(alloc: Global, p: &Problem, bounds: List<Bound>) -> Result<Residual, Memory>
        requires { IsValidProblem p.now }
        ensures { IfOk result (λ r. r ≡ fresh p.now bounds) }
    {
        let amounts = Vec::from_elem(alloc, 0, bounds.len())?;
        let left = balances(alloc, p)?;
        Ok(Residual {
            bounds,
            amounts: List::from_vec(amounts),
            left,
        })
    }

    /// Moves the greatest amount along a path that the amounts which fall, and both its ends, allow. It takes no memory.
    pub fn augment(&mut self, path: &Path)
        requires { CanAugment self.old path.now }
        ensures { self.new ≡ augmented self.old path.now }
    {
        let steps = path.steps.as_slice();
        let root = self.left.len() - 1;
        let bounds = self.bounds.as_slice();
        let source = node_before(bounds, steps[0], root);
        let target = node_behind(bounds, steps[steps.len() - 1], root);
        let most = most_between(self.left.as_slice(), source, target);
        let amount = room(steps, self.amounts.as_slice(), most);
        move_along(&mut self.amounts, steps, amount);
        settle(&mut self.left, source, target, amount);
    }
}

fn from_node(bound: &Bound, root: usize) -> usize
    ensures { result ≡ from_of root bound.now }
{
    match bound {
        Bound::Early(_) => root,
        Bound::Late(op) => *op as usize,
        Bound::Dep(from, _) => *from as usize,
        Bound::Chain(path) => match path.as_slice().first() {
            Some(op) => *op as usize,
            None => 0,
        },
    }
}

fn to_node(bound: &Bound, root: usize) -> usize
    ensures { result ≡ to_of root bound.now }
{
    match bound {
        Bound::Early(op) => *op as usize,
        Bound::Late(_) => root,
        Bound::Dep(_, to) => *to as usize,
        Bound::Chain(path) => match path.as_slice().last() {
            Some(op) => *op as usize,
            None => 0,
        },
    }
}

fn node_before(bounds: &[Bound], step: (u32, bool), root: usize) -> usize
    requires { step.0 < length bounds.now }
    ensures { result ≡ before root bounds.now step }
{
    let (place, along) = step;
    let bound = &bounds[place as usize];
    if along {
        from_node(bound, root)
    } else {
        to_node(bound, root)
    }
}

fn node_behind(bounds: &[Bound], step: (u32, bool), root: usize) -> usize
    requires { step.0 < length bounds.now }
    ensures { result ≡ behind root bounds.now step }
{
    let (place, along) = step;
    let bound = &bounds[place as usize];
    if along {
        to_node(bound, root)
    } else {
        from_node(bound, root)
    }
}

// what a node that has to spare and one that needs allow to be moved from the one to the other
fn most_between(left: &[i64], source: usize, target: usize) -> u64
    requires within { (source < length left.now) × (target < length left.now) }
    requires spare { slice_index_or left.now source (pos 0) <ℤ pos 0 }
    requires need { pos 0 <ℤ slice_index_or left.now target (pos 0) }
    ensures { result ≡ min (need_of (slice_index_or left.now target (pos 0))) (spare_of (slice_index_or left.now source (pos 0))) }
{
    left[target].unsigned_abs().min(left[source].unsigned_abs())
}

// what is left of the balance of a node
fn left_at(left: &[i64], node: usize) -> i64
    requires { node < length left.now }
    ensures { result ≡ slice_index_or left.now node (pos 0) }
{
    left[node]
}

// less is left at both ends
fn settle(left: &mut List<i64>, source: usize, target: usize, amount: u64)
    requires within { (source < length left.old) × (target < length left.old) }
    requires apart { source ≢ target }
    requires spare { amount ≤ spare_of (slice_index_or left.old source (pos 0)) }
    requires need { amount ≤ need_of (slice_index_or left.old target (pos 0)) }
    ensures { left.new ≡ settled left.old source target amount }
{
    let spare = left_at(left.as_slice(), source);
    let need = left_at(left.as_slice(), target);
    left.set(source, spare + amount as i64);
    left.set(target, need - amount as i64);
}
