//! Arcs that are followed until all are met.

ghost use Rattle.std.specs.Prelude.{◌≡◌, ◌<◌, length, IfOk, IfSome, IsNone, All, sum};
ghost use Rattle.ix_sheet.specs.Bounds.{Meets};
ghost use Rattle.ix_solve.specs.Search.{IsInside, IsOverdue, IsRelaxed, IsRound, IsSearch, arc_at, reach_at};

use crate::network::Network;
use crate::search::{Search, is_late, is_met, raise};
use std::alloc::AllocError;

/// What following one arc came to.
#[derive(Clone, Copy, Debug, PartialEq, Eq)]
pub enum Relaxed {
    Met,
    Raised,
    Late,
}

/// What following each arc once came to. The arc at the place is late.
#[derive(Clone, Copy, Debug, PartialEq, Eq)]
pub enum Round {
    Settled,
    Raised,
    Late(usize),
}

// raises the end of an arc if the walks do not meet it
fn relax(search: &mut Search, network: &Network, place: usize) -> Result<Relaxed, AllocError>
    requires search { IsSearch network.now search.old }
    requires inside { All (IsInside network.now.root) network.now.arcs.items }
    requires within { place < length network.now.arcs.items }
    ensures search { IfOk result (λ _. IsSearch network.now search.new × (search.new.source ≡ search.old.source)) }
    ensures relaxed { IfOk result (IsRelaxed (arc_at network.now.arcs.items place) search.old search.new) }
{
    let arc = network.arcs[place];
    if is_met(search, arc, network.root) {
        return Ok(Relaxed::Met);
    }
    if is_late(search, arc, network.root) {
        return Ok(Relaxed::Late);
    }
    raise(search, network, place)?;
    Ok(Relaxed::Raised)
}

fn relax_all(search: &mut Search, network: &Network) -> Result<Round, AllocError>
    requires search { IsSearch network.now search.old }
    requires inside { All (IsInside network.now.root) network.now.arcs.items }
    ensures search { IfOk result (λ _. IsSearch network.now search.new × (search.new.source ≡ search.old.source)) }
    ensures round { IfOk result (IsRound network.now search.old search.new) }
{
    let mut grown = false;
    'arcs: for place in 0..network.arcs.len() {
        match relax(search, network, place)? {
            Relaxed::Met => {}
            Relaxed::Raised => grown = true,
            Relaxed::Late => return Ok(Round::Late(place)),
        }
    }
    if grown {
        Ok(Round::Raised)
    } else {
        Ok(Round::Settled)
    }
}

/// Follows arcs until all are met, or until one is late: its place.
pub fn settle(search: &mut Search, network: &Network) -> Result<Option<usize>, AllocError>
    requires search { IsSearch network.now search.old }
    requires inside { All (IsInside network.now.root) network.now.arcs.items }
    ensures search { IfOk result (λ _. IsSearch network.now search.new × (search.new.source ≡ search.old.source)) }
    ensures settled { IfOk result (λ late. IsNone late → All (Meets (reach_at search.new)) network.now.arcs.items) }
    ensures late { IfOk result (λ late. IfSome late (IsOverdue network.now search.new)) }
{
    'rounds: loop {
        match relax_all(search, network)? {
            Round::Settled => return Ok(None),
            Round::Raised => {}
            Round::Late(place) => return Ok(Some(place)),
        }
    }
}
