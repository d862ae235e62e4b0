ghost use Rattle.std.specs.Prelude.{◌≡◌, ◌<◌, IfOk, OnOk, MatchOption, length, All, is_some, true};
ghost use Rattle.ix_sheet.specs.declared.problem.Bound.TheVariants.{Chain};
ghost use Rattle.ix_sheet.specs.Schedules.{IsValidProblem};
ghost use Rattle.ix_problem.specs.Reaches.{AreAllStarts, AreReaches, LeadBack, reach_at, IsTrail, passes_at, passed_at, IsChainOption, HasChainsOf, HasChains};

use crate::reach::{Reach, free_starts, reach_all};
use ix_bits::{List, Memory};
use ix_sheet::{Bound, Problem};
use std::alloc::Global;

// The operation before one that is reached.
fn parent_of(reaches: &[Option<Reach>], at: u32) -> u32
    requires { is_some (reach_at reaches.now at) ≡ true }
    ensures { MatchOption (reach_at reaches.now at) ⊥ (λ reach. result ≡ reach.parent) }
{
    match reaches[at as usize] {
        Some(reach) => reach.parent,
        None => unreachable!(),
    }
}

// The path from the source to an operation that is reached, back by the operations before.
fn path_to(
    alloc: Global,
    reaches: &[Option<Reach>],
    source: u32,
    end: u32,
) -> Result<List<u32>, Memory>
    requires back { LeadBack source reaches.now }
    requires found { is_some (reach_at reaches.now end) ≡ true }
    ensures { IfOk result (IsTrail reaches.now source source end) }
{
    let mut path = Vec::new(alloc);
    let mut at = end;
    path.push(at)?;
    'back: while at != source {
        at = parent_of(reaches, at);
        path.push(at)?;
    }
    path.reverse();
    Ok(List::from_vec(path))
}

// Whether a path to the operation passes the period.
fn passes(reach: Option<Reach>, period: u32) -> bool
    ensures { result ≡ passes_at period reach }
{
    match reach {
        None => false,
        Some(reach) => u64::from(period) < reach.delay,
    }
}

// Whether a path to one of the starts passes the period.
fn passed_before(reaches: &[Option<Reach>], starts: &[u32], period: u32) -> bool
    requires { All (λ k. k < length reaches.now) starts.now }
    ensures { result ≡ passed_at period reaches.now starts.now }
{
    'starts: for start in starts {
        if passes(reaches[*start as usize], period) {
            return true;
        }
    }
    false
}

// The chain from the source to an operation at which the period is passed, unless it is passed at a start of a free edge to it.
fn chain_to(
    alloc: Global,
    period: u32,
    reaches: &[Option<Reach>],
    starts: &[u32],
    source: u32,
    end: u32,
) -> Result<Option<List<u32>>, Memory>
    requires back { LeadBack source reaches.now }
    requires inside { end < length reaches.now }
    requires starts { All (λ k. k < length reaches.now) starts.now }
    ensures { IfOk result (IsChainOption period reaches.now starts.now source end) }
{
    if passes(reaches[end as usize], period) && !passed_before(reaches, starts, period) {
        Ok(Some(path_to(alloc, reaches, source, end)?))
    } else {
        Ok(None)
    }
}

// Puts the chains of a source behind the other bounds.
fn push_chains_from(
    alloc: Global,
    p: &Problem,
    starts: &[List<u32>],
    source: u32,
    bounds: &mut List<Bound>,
) -> Result<(), Memory>
    requires valid { IsValidProblem p.now }
    requires count { length starts.now ≡ length p.now.ops }
    requires all { AreAllStarts p.now starts.now }
    requires source { source < length p.now.ops }
    ensures { OnOk result (HasChainsOf p.now source bounds.old bounds.new) }
{
    let reaches = reach_all(alloc, p, starts, source)?;
    let reaches = reaches.as_slice();
    'ops: for end in 0..reaches.len() {
        let starts = starts[end].as_slice();
        let chain = chain_to(alloc, p.period, reaches, starts, source, end as u32)?;
        if let Some(path) = chain {
            bounds.push(Bound::Chain(path))?;
        }
    }
    Ok(())
}

/// Puts the chains of all sources behind the other bounds: one from a source to each operation at which the period is passed,
/// but for those to which a free edge leads from where it is passed already.
pub(crate) fn push_chains(
    alloc: Global,
    p: &Problem,
    bounds: &mut List<Bound>,
) -> Result<(), Memory>
    requires valid { IsValidProblem p.now }
    ensures { OnOk result (HasChains p.now (length p.now.ops) bounds.old bounds.new) }
{
    let starts = free_starts(alloc, p)?;
    'sources: for source in 0..p.ops.len() {
        push_chains_from(alloc, p, starts.as_slice(), source as u32, bounds)?;
    }
    Ok(())
}
