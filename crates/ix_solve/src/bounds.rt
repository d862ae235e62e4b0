//! The inequalities that the bounds of a problem are.

ghost use Rattle.std.specs.Prelude.{◌≡◌, ℕ, ◌<◌, length, map, IfOk, All};
ghost use Rattle.ix_sheet.specs.Schedules.{IsValidProblem};
ghost use Rattle.ix_sheet.specs.Bounds.{IsBoundOf, arc_of};
ghost use Rattle.ix_problem.specs.Constraints.{AreConstraints};
ghost use Rattle.ix_residual.specs.Residuals.{bound_at};
ghost use Rattle.ix_solve.specs.Networks.{IsNetwork};
ghost use Rattle.ix_solve.specs.Answers.{FitsByte};

use crate::network::Network;
use ix_bits::Memory;
use ix_sheet::{Arc, Bound, Problem, arc_of_bound};
use std::alloc::Global;

// the inequality that a bound is; the ends of windows are read here, and so known to fit a byte
fn arc_for(p: &Problem, bound: &Bound) -> Arc
    requires valid { IsValidProblem p.now }
    requires of { IsBoundOf p.now bound.now }
    ensures is { result ≡ arc_of p.now bound.now }
    ensures byte { FitsByte bound.now result }
{
    let ops = p.ops.as_slice();
    let root = ops.len() as u32;
    match bound {
        Bound::Early(op) => Arc {
            from: root,
            to: *op,
            up: u32::from(ops[*op as usize].early),
            down: 0,
        },
        Bound::Late(op) => Arc {
            from: *op,
            to: root,
            up: 0,
            down: u32::from(ops[*op as usize].late),
        },
        Bound::Dep(..) | Bound::Chain(_) => arc_of_bound(p, bound),
    }
}

fn arcs_of(alloc: Global, p: &Problem, bounds: &[Bound]) -> Result<Vec<Arc>, Memory>
    requires valid { IsValidProblem p.now }
    requires of { All (IsBoundOf p.now) bounds.now }
    ensures are { IfOk result (λ arcs. arcs.items ≡ map (arc_of p.now) bounds.now) }
    ensures bytes { IfOk result (λ arcs. (k : ℕ) → k < length bounds.now → FitsByte (bound_at bounds.now k) (arc_of p.now (bound_at bounds.now k))) }
{
    let mut arcs = Vec::new(alloc);
    'bounds: for bound in bounds {
        arcs.push(arc_for(p, bound))?;
    }
    Ok(arcs)
}

/// The network of the bounds, none of them turned round. More bounds than places can be named for, which no memory holds, are
/// answered as want of memory.
pub fn network_of(alloc: Global, p: &Problem, bounds: &[Bound]) -> Result<Network, Memory>
    requires valid { IsValidProblem p.now }
    requires constraints { AreConstraints p.now bounds.now }
    ensures network { IfOk result IsNetwork }
    ensures root { IfOk result (λ network. network.root ≡ length p.now.ops) }
    ensures arcs { IfOk result (λ network. (network.arcs.items ≡ map (arc_of p.now) bounds.now) × (network.bounds ≡ length bounds.now)) }
{
    let arcs = arcs_of(alloc, p, bounds)?;
    if arcs.len() > u32::MAX as usize {
        return Err(Memory);
    }
    Ok(Network::new(alloc, p.ops.len() as u32, arcs))
}
