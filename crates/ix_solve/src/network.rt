//! The inequalities that walks follow.

ghost use Rattle.std.specs.Prelude.{◌≡◌, ◌<◌, ◌≤◌, ◌^◌, length, take, IfOk, slice_index};
ghost use Rattle.ix_sheet.specs.Bounds.{turned};
ghost use Rattle.ix_solve.specs.Networks.{IsNetwork, IsResidual, step_of};
ghost use Rattle.ix_solve.specs.Search.{IsFramed};

use ix_sheet::Arc;
use std::alloc::{AllocError, Global};

/// Inequalities between the times of nodes.
#[derive(Drop)]
pub struct Network {
    /// The last node, whose time is 0.
    pub root: u32,
    /// How many inequalities there are.
    pub bounds: usize,
    /// The inequalities, and behind them some of these turned round.
    pub arcs: Vec<Arc>,
    /// The places of those that are turned round, in order.
    pub back: Vec<u32>,
}

fn turned(arc: Arc) -> Arc
    ensures { result ≡ turned arc }
{
    Arc {
        from: arc.to,
        to: arc.from,
        up: arc.down,
        down: arc.up,
    }
}

impl Network {
    /// The inequalities, none of them turned round.
    pub fn new(alloc: Global, root: u32, arcs: Vec<Arc>) -> Network
        requires framed { IsFramed root arcs.items }
        requires few { length arcs.items < 2 ^ 32 }
        ensures network { IsNetwork result }
        ensures root { result.root ≡ root }
        ensures arcs { (result.arcs.items ≡ arcs.items) × (result.bounds ≡ length arcs.items) }
    {
        Network {
            root,
            bounds: arcs.len(),
            arcs,
            back: Vec::new(alloc),
        }
    }

    /// Turns round the inequalities that carry an amount, and no others.
    pub fn turn(&mut self, amounts: &[u64]) -> Result<(), AllocError>
        requires network { IsNetwork self.old }
        requires same { length amounts.now ≡ self.old.bounds }
        ensures network { IfOk result (λ _. IsNetwork self.new) }
        ensures same { IfOk result (λ _. (self.new.root ≡ self.old.root) × (self.new.bounds ≡ self.old.bounds)) }
        ensures kept { IfOk result (λ _. take self.old.bounds self.new.arcs.items ≡ take self.old.bounds self.old.arcs.items) }
        ensures residual { IfOk result (λ _. IsResidual amounts.now self.new) }
    {
        self.arcs.truncate(self.bounds);
        self.back.clear();
        'bounds: for place in 0..amounts.len() {
            if amounts[place] > 0 {
                let arc = turned(self.arcs[place]);
                self.arcs.push(arc)?;
                self.back.push(place as u32)?;
            }
        }
        Ok(())
    }

    /// The inequality that stands at a place, and whether it does so along (true) or turned round (false).
    pub fn step(&self, place: usize) -> (u32, bool)
        requires network { IsNetwork self.now }
        requires within { place < length self.now.arcs.items }
        ensures { result ≡ step_of self.now place }
    {
        if place < self.bounds {
            (place as u32, true)
        } else {
            (self.back[place - self.bounds], false)
        }
    }
}
