ghost use Rattle.std.specs.Prelude.{◌≡◌, ◌+◌, ◌<◌, ◌≤◌, ◌++◌, ◌∷◌, ℕ, List, None, Some, length, vec_capacity};
ghost use Rattle.ix_plan.specs.Units.{unit_written};
ghost use Rattle.rv_harts.specs.Harts.{Fetched};
ghost use Rattle.rv_harts.specs.HartRows.{written_by, written_as};
ghost use Rattle.rv_lawful.specs.LawfulTrace.{serial_in};
ghost use Rattle.rv_lawful.specs.Settings.{Setting};
ghost use Rattle.rv_unit.specs.Slots.{units_of};
ghost use Rattle.rv_unit.specs.Timed.{AreUnits, IsTimed};
ghost use Rattle.rv_barrel.specs.Cells.{AreOwed};
ghost use Rattle.rv_barrel.specs.Older.{kept_of};
ghost use Rattle.rv_barrel.specs.Owing.{oldest_of, entering_by, owed_by, unit_entered, without_serial};

use crate::cell::{InFlight, Owed};
use ix_bits::Bits;
use rv_seq::{Slot, StepAnswer};
use rv_tried::spawn_writes;
use rv_unit::{Entry, Units, unit_laws};

// The oldest serial of a unit; the newest entry is first.
fn oldest_in(entries: &[Entry], unit: u8) -> Option<u32>
    ensures { result ≡ oldest_of unit entries.now }
{
    match entries {
        [] => None,
        [entry, older @ ..] => match oldest_in(older, unit) {
            None => {
                if entry.unit == unit {
                    Some(entry.serial)
                } else {
                    None
                }
            }
            found => found,
        },
    }
}

/// The serial that the units write where they step: that of the lowest unit with one at its last time.
pub fn serial_out(units: &Units) -> Option<u32>
    ensures serial { result ≡ serial_in (unit_written (units_of units.now.stages units.now.lasts units.now.entries)) }
    ensures units { AreUnits units.now.stages units.now.lasts }
    ensures timed { IsTimed units.now.stages units.now.lasts units.now.entries }
{
    unit_laws();
    let entries = units.entries();
    match units.granted() {
        None => None,
        Some(unit) => oldest_in(entries, unit),
    }
}

// What one of these writes, as a row shows it.
fn shown_of(one: &Owed) -> (u32, u8, Slot<u32>, [Slot<Bits>; 16])
    ensures { result ≡ written_as one.now.serial one.now.writes }
{
    let custom = one.writes.custom;
    (one.serial, one.writes.rd_index, one.writes.rd, custom)
}

// Shows what is written for this serial.
fn show_for(
    owed: &[Owed],
    serial: u32,
    written: &mut Option<(u32, u8, Slot<u32>, [Slot<Bits>; 16])>,
)
    requires { written.old ≡ None }
    ensures { (k : Setting) (all : List Fetched) → AreOwed k owed.now all → written.new ≡ written_by k all (Some serial) }
{
    if let [one, newer @ ..] = owed {
        if one.serial == serial {
            *written = Some(shown_of(one));
        } else {
            show_for(newer, serial, written);
        }
    }
}

/// Shows what is written in a row, where a serial of these is, and where the row shows nothing yet.
pub fn show_written(
    owed: &[Owed],
    out: Option<u32>,
    written: &mut Option<(u32, u8, Slot<u32>, [Slot<Bits>; 16])>,
)
    requires { written.old ≡ None }
    ensures { (k : Setting) (all : List Fetched) → AreOwed k owed.now all → written.new ≡ written_by k all out }
{
    if let Some(serial) = out {
        show_for(owed, serial, written);
    }
}

/// Takes what is written away.
pub fn take_out(owed: &mut Vec<Owed>, out: Option<u32>)
    ensures items { owed.new.items ≡ without_serial out owed.old.items }
    ensures capacity { vec_capacity owed.new ≡ vec_capacity owed.old }
{
    let mut place = 0usize;
    while place < owed.len() {
        if out == Some(owed[place].serial) {
            owed.remove(place);
        } else {
            place += 1;
        }
    }
}

/// Puts what retires out of a slot with a unit, if anything does, behind all others, into reserved room. Gives its unit and its serial.
pub fn put_last(owed: &mut Vec<Owed>, slot: &Option<InFlight>) -> Option<(u8, u32)>
    requires { length (owed.old.items ++ owed_by (entering_by slot.now)) ≤ vec_capacity owed.old }
    ensures unit { result ≡ unit_entered (entering_by slot.now) }
    ensures items { owed.new.items ≡ owed.old.items ++ owed_by (entering_by slot.now) }
    ensures capacity { vec_capacity owed.old ≤ vec_capacity owed.new }
{
    let one = slot.as_ref()?;
    let unit = one.asks.unit?;
    let step = one.step.as_ref()?;
    match &step.answer {
        StepAnswer::Stopped(_) => None,
        StepAnswer::Done(commit) => {
            let entering = Owed {
                serial: one.serial,
                asks: one.asks,
                writes: spawn_writes(&one.asks, &step.own, commit),
            };
            owed.push(entering).unwrap();
            Some((unit, one.serial))
        }
    }
}
