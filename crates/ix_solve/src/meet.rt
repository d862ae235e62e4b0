//! Balances that are met along longest residual paths, one after the other.

ghost use Rattle.std.specs.Prelude.{◌≡◌, length, map, take, IfOk, All};
ghost use Rattle.ix_sheet.specs.Schedules.{IsValidProblem};
ghost use Rattle.ix_sheet.specs.Bounds.{IsBoundOf, arc_of};
ghost use Rattle.ix_solve.specs.Networks.{IsNetwork};
ghost use Rattle.ix_solve.specs.Search.{IsFeasible};
ghost use Rattle.ix_solve.specs.State.{IsMet};

use crate::ends::ends_left;
use crate::incidence::touching;
use crate::longest::{Longest, longest_path};
use crate::network::Network;
use crate::trees::exhaust;
use ix_bits::{List, Memory};
use ix_residual::{Path, Residual};
use ix_sheet::{Bound, Problem};
use std::alloc::Global;

/// A flow, and the paths along which its amounts have moved, in order.
#[derive(Drop)]
pub struct Met {
    pub residual: Residual,
    pub paths: List<Path>,
}

/// Meets all balances. The network is then that of the flow.
pub fn meet(
    alloc: Global,
    p: &Problem,
    bounds: List<Bound>,
    network: &mut Network,
) -> Result<Met, Memory>
    requires valid { IsValidProblem p.now }
    requires of { All (IsBoundOf p.now) bounds }
    requires network { IsNetwork network.old }
    requires root { network.old.root ≡ length p.now.ops }
    requires arcs { (network.old.arcs.items ≡ map (arc_of p.now) bounds) × (network.old.bounds ≡ length bounds) }
    requires feasible { IsFeasible network.old.root network.old.arcs.items }
    ensures { IfOk result (IsMet p.now bounds network.new) }
{
    let mut residual = Residual::new(alloc, p, bounds)?;
    let mut paths = List::new(alloc);
    let lists = touching(alloc, network)?;
    'paths: loop {
        network.turn(residual.amounts.as_slice())?;
        let Some((source, target)) = ends_left(residual.left.as_slice()) else {
            return Ok(Met { residual, paths });
        };
        let Longest { steps, times } = longest_path(alloc, network, source, target)?;
        let path = Path { steps };
        residual.augment(&path);
        paths.push(path)?;
        let times = times.as_slice();
        exhaust(
            alloc,
            p,
            network,
            lists.as_slice(),
            times,
            &mut residual,
            &mut paths,
        )?;
    }
}
