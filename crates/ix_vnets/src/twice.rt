ghost use Rattle.std.specs.Prelude.{◌≡◌, ◌||◌, ℕ, List, [], ◌∷◌, ◌++◌, not, IfOk, OnOk, MatchOption};
ghost use Rattle.std.specs.Str.{bytes_eq};
ghost use Rattle.std.specs.BTreeSet.{contains_text};
ghost use Rattle.ix_net.specs.Valid.{names};
ghost use Rattle.ix_verilog.specs.Subset.{declared};
ghost use Rattle.ix_vnets.specs.Names.{AreOnce, AllOnce, FirstTwice, IsFirstTwice, said, said_in, targets, updated};
ghost use Rattle.ix_vnets.specs.Sets.{IsSet};

use ix_bits::{Memory, Name};
use ix_net::Port;
use ix_verilog::{Assign, Source, Update};
use std::alloc::Global;
use std::collections::BTreeSet;

/// Puts a name into a set; whether it was not there.
fn see(alloc: Global, seen: &mut BTreeSet<String>, name: &str) -> Result<bool, Memory>
    ensures first { IfOk result (λ first. first ≡ not (contains_text seen.old name.now)) }
    ensures more { OnOk result ((q : List ℕ) → contains_text seen.new q ≡ (bytes_eq name.now q || contains_text seen.old q)) }
{
    let copy = String::from_str(alloc, name)?;
    let first = seen.insert(copy)?;
    Ok(first)
}

/// Puts the names of ports into a set, up to the first that was there.
fn see_ports(
    alloc: Global,
    seen: &mut BTreeSet<String>,
    ports: &[Port],
) -> Result<Option<Name>, Memory>
    ensures { IfOk result (λ twice. (front : List (List ℕ)) → IsSet seen.old front →
        MatchOption twice (IsSet seen.new (front ++ names ports.now)) (IsFirstTwice (front ++ names ports.now))) }
{
    for port in ports {
        if !see(alloc, seen, port.name.as_str())? {
            let name = Name::from_text(alloc, port.name.as_str())?;
            return Ok(Some(name));
        }
    }
    Ok(None)
}

/// The first name that an `assign` drives a second time.
fn twice_assigned(alloc: Global, assigns: &[Assign]) -> Result<Option<Name>, Memory>
    ensures { IfOk result (λ twice. MatchOption twice (AreOnce (targets assigns.now)) (IsFirstTwice (targets assigns.now))) }
{
    let mut seen = BTreeSet::new(alloc);
    for assign in assigns {
        if !see(alloc, &mut seen, assign.target.as_str())? {
            let name = Name::from_text(alloc, assign.target.as_str())?;
            return Ok(Some(name));
        }
    }
    Ok(None)
}

/// The first register that changes by a second line.
fn twice_updated(alloc: Global, updates: &[Update]) -> Result<Option<Name>, Memory>
    ensures { IfOk result (λ twice. MatchOption twice (AreOnce (updated updates.now)) (IsFirstTwice (updated updates.now))) }
{
    let mut seen = BTreeSet::new(alloc);
    for update in updates {
        if !see(alloc, &mut seen, update.target.as_str())? {
            let name = Name::from_text(alloc, update.target.as_str())?;
            return Ok(Some(name));
        }
    }
    Ok(None)
}

/// The first name that a module declares a second time, or that is its own.
fn twice_declared(alloc: Global, source: &Source) -> Result<Option<Name>, Memory>
    ensures { IfOk result (λ twice. MatchOption twice (AreOnce (source.now.name ∷ names (declared source.now)))
        (IsFirstTwice (source.now.name ∷ names (declared source.now)))) }
{
    let mut seen = BTreeSet::new(alloc);
    see(alloc, &mut seen, source.name.as_str())?;
    if let Some(name) = see_ports(alloc, &mut seen, source.inputs.as_slice())? {
        return Ok(Some(name));
    }
    if let Some(name) = see_ports(alloc, &mut seen, source.outputs.as_slice())? {
        return Ok(Some(name));
    }
    if let Some(name) = see_ports(alloc, &mut seen, source.wires.as_slice())? {
        return Ok(Some(name));
    }
    see_ports(alloc, &mut seen, source.registers.as_slice())
}

/// The first name that a module declares or drives a second time.
fn twice_in(alloc: Global, source: &Source) -> Result<Option<Name>, Memory>
    ensures { IfOk result (λ twice. MatchOption twice (AllOnce (said_in source.now)) (FirstTwice (said_in source.now))) }
{
    if let Some(name) = twice_declared(alloc, source)? {
        return Ok(Some(name));
    }
    if let Some(name) = twice_assigned(alloc, source.assigns.as_slice())? {
        return Ok(Some(name));
    }
    twice_updated(alloc, source.updates.as_slice())
}

/// The first name that is driven or declared twice, or that two modules have.
pub fn first_twice(alloc: Global, modules: &[Source]) -> Result<Option<Name>, Memory>
    ensures { IfOk result (λ twice. MatchOption twice (AllOnce (said [] modules.now)) (FirstTwice (said [] modules.now))) }
{
    let mut seen = BTreeSet::new(alloc);
    for source in modules {
        if !see(alloc, &mut seen, source.name.as_str())? {
            let name = Name::from_text(alloc, source.name.as_str())?;
            return Ok(Some(name));
        }
        if let Some(name) = twice_in(alloc, source)? {
            return Ok(Some(name));
        }
    }
    Ok(None)
}
