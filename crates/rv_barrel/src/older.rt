ghost use Rattle.std.specs.Prelude.{◌≡◌, ◌++◌, ◌+◌, ◌<◌, ◌≤◌, ℕ, List, Option, length, reverse, filter, not, true};
ghost use Rattle.rv_harts.specs.Harts.{Fetched};
ghost use Rattle.rv_harts.specs.Events.{standing as standing_of, undone};
ghost use Rattle.rv_harts.specs.Turns.{eldest};
ghost use Rattle.rv_lawful.specs.Settings.{Setting};
ghost use Rattle.rv_unit.specs.Entries.{is_number};
ghost use Rattle.rv_barrel.specs.Cells.{fetched_of, AreAsked, AreOwed};
ghost use Rattle.rv_barrel.specs.declared.older.Wanted.TheVariants.{Either};
ghost use Rattle.rv_barrel.specs.Older.{IsWanted, meets, asked_so, any_one, kept_of, serial_so, serial_left, does_end};

use crate::cell::{InFlight, Owed};
use rv_asks::Asks;
use rv_core::Shape;
use rv_holds::{does_spawn, spawns_any};

/// What an older instruction is looked for by.
#[derive(Clone, Copy)]
pub enum Wanted {
    /// It writes this x register, and not by `spawn`.
    Destination(u8),
    /// It writes one of these two x registers, and not by `spawn`.
    Either(u8, u8),
    /// Its `spawn` body writes this register, given by its number: 32 of the base, then the custom ones.
    Target(u8),
    /// Its `spawn` body writes a register.
    Spawner,
    /// It writes this custom register above EX.
    LateCustom(u8),
    /// It writes the pc above EX.
    Late,
    /// It has this unit.
    InUnit(u8),
    /// Whatever it does.
    Any,
}

// Does an instruction write one of these x registers, and not by `spawn`?
fn writes_either(asks: &Asks, first: u8, second: u8) -> bool
    ensures { result ≡ meets (Either first second) asks.now }
{
    asks.destination != 0 && (asks.destination == first || asks.destination == second)
}

// Is it one that is looked for?
fn is_wanted(asks: &Asks, wanted: Wanted) -> bool
    requires { IsWanted wanted }
    ensures { result ≡ meets wanted asks.now }
{
    match wanted {
        Wanted::Destination(register) => asks.destination == register,
        Wanted::Either(first, second) => writes_either(asks, first, second),
        Wanted::Target(number) => does_spawn(asks, number),
        Wanted::Spawner => spawns_any(asks),
        Wanted::LateCustom(register) => asks.late_customs[usize::from(register)],
        Wanted::Late => asks.late,
        Wanted::InUnit(number) => asks.unit == Some(number),
        Wanted::Any => true,
    }
}

// The serial of what stands in a slot, if it is looked for.
fn own_serial(slot: &Option<InFlight>, wanted: Wanted) -> Option<u32>
    requires { IsWanted wanted }
    ensures { result ≡ serial_so wanted slot.now }
{
    match slot {
        None => None,
        Some(one) => {
            if is_wanted(&one.asks, wanted) {
                Some(one.serial)
            } else {
                None
            }
        }
    }
}

/// The serial of the oldest of these that is looked for; the last stage is the last of them.
pub fn eldest_standing(standing: &[Option<InFlight>], wanted: Wanted) -> Option<u32>
    requires { IsWanted wanted }
    ensures { (k : Setting) (q : ℕ) → AreAsked k standing.now → result ≡ eldest (asked_so k wanted) (reverse (standing_of (fetched_of q standing.now))) }
{
    match standing {
        [] => None,
        [slot, older @ ..] => match eldest_standing(older, wanted) {
            None => own_serial(slot, wanted),
            found => found,
        },
    }
}

// Is the serial the one that is written in this row?
fn is_out(out: Option<u32>, serial: u32) -> bool
    ensures { result ≡ is_number out serial }
{
    out == Some(serial)
}

/// The serial of the oldest of what is owed that is looked for, without the one that goes out, if any.
pub fn eldest_owed(owed: &[Owed], out: Option<u32>, wanted: Wanted) -> Option<u32>
    requires { IsWanted wanted }
    ensures { (k : Setting) (all : List Fetched) → AreOwed k owed.now all → result ≡ eldest (asked_so k wanted) (kept_of out all) }
{
    match owed {
        [] => None,
        [one, newer @ ..] => {
            if !is_out(out, one.serial) && is_wanted(&one.asks, wanted) {
                Some(one.serial)
            } else {
                eldest_owed(newer, out, wanted)
            }
        }
    }
}

/// The serial of the oldest that is looked for and not written in an earlier row.
pub fn eldest_unwritten(owed: &[Owed], standing: &[Option<InFlight>], wanted: Wanted) -> Option<u32>
    requires { IsWanted wanted }
    ensures { (k : Setting) (q : ℕ) (all : List Fetched) → AreAsked k standing.now → AreOwed k owed.now all → result ≡ eldest (asked_so k wanted) (all ++ reverse (standing_of (fetched_of q standing.now))) }
{
    match eldest_owed(owed, None, wanted) {
        None => eldest_standing(standing, wanted),
        found => found,
    }
}

// Does it retire in this stage, with nothing to be written later?
fn is_done(shape: Shape, stage: u8, asks: &Asks) -> bool
    requires { stage < 255 }
    ensures { result ≡ does_end shape.stages stage asks.now }
{
    stage + 1 == shape.stages && asks.unit.is_none()
}

// The serial of what stands in a slot of this stage, if it is not done by the end of the row.
fn own_undone(shape: Shape, stage: u8, slot: &Option<InFlight>) -> Option<u32>
    requires { stage < 255 }
    ensures { result ≡ serial_left shape.stages stage slot.now }
{
    match slot {
        None => None,
        Some(one) => {
            if is_done(shape, stage, &one.asks) {
                None
            } else {
                Some(one.serial)
            }
        }
    }
}

// The serial of the oldest of these that is not done by the end of the row; the first of them stands in this stage.
fn eldest_undone(shape: Shape, stage: u8, standing: &[Option<InFlight>]) -> Option<u32>
    requires { stage + length standing.now < 255 }
    ensures { (k : Setting) (q : ℕ) → k.shape.stages ≡ shape.stages → AreAsked k standing.now → result ≡ eldest any_one (reverse (undone k stage (fetched_of q standing.now))) }
{
    match standing {
        [] => None,
        [slot, older @ ..] => match eldest_undone(shape, stage + 1, older) {
            None => own_undone(shape, stage, slot),
            found => found,
        },
    }
}

/// The serial of the oldest that is not retired, or not written, by the end of the row; the first that stands does so in this stage.
pub fn eldest_left(
    shape: Shape,
    owed: &[Owed],
    out: Option<u32>,
    stage: u8,
    standing: &[Option<InFlight>],
) -> Option<u32>
    requires { stage + length standing.now < 255 }
    ensures { (k : Setting) (q : ℕ) (all : List Fetched) → k.shape.stages ≡ shape.stages → AreAsked k standing.now → AreOwed k owed.now all → result ≡ eldest any_one (kept_of out all ++ reverse (undone k stage (fetched_of q standing.now))) }
{
    match eldest_owed(owed, out, Wanted::Any) {
        None => eldest_undone(shape, stage, standing),
        found => found,
    }
}
