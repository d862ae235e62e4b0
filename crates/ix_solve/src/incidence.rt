//! The inequalities at each node.

ghost use Rattle.std.specs.Prelude.{IfOk};
ghost use Rattle.ix_solve.specs.Networks.{IsNetwork};
ghost use Rattle.ix_solve.specs.Forests.{AreTouching};

use crate::network::Network;
use ix_bits::{List, Memory};
use std::alloc::{AllocError, Global};

// a list for each node, and nothing in it
fn no_places(alloc: Global, network: &Network) -> Result<Vec<List<u32>>, AllocError>
    ensures { IfOk result (λ lists. AreTouching network.now.root network.now.bounds lists.items) }
{
    let mut lists = Vec::new(alloc);
    'nodes: for _ in 0..network.root as usize + 1 {
        lists.push(List::new(alloc))?;
    }
    Ok(lists)
}

/// For each node the places of the inequalities that begin or end there; those that are turned round are left out.
pub fn touching(alloc: Global, network: &Network) -> Result<Vec<List<u32>>, Memory>
    requires { IsNetwork network.now }
    ensures { IfOk result (λ lists. AreTouching network.now.root network.now.bounds lists.items) }
{
    let mut lists = no_places(alloc, network)?;
    'bounds: for place in 0..network.bounds {
        let arc = network.arcs[place];
        lists[arc.from as usize].push(place as u32)?;
        lists[arc.to as usize].push(place as u32)?;
    }
    Ok(lists)
}
