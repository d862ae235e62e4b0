ghost use Rattle.std.specs.Prelude.{◌≡◌, ◌-◌, ◌≤◌, ◌++◌, Some, None, length, replicate};
ghost use Rattle.rv_harts.specs.HartRows.{redirect_of, stop_of as specified_stop_of, event_at, turn_at as specified_turn_at};
ghost use Rattle.rv_trace.specs.RowParts.{in_five};
ghost use Rattle.rv_tried.specs.Parts.{shown as specified_shown};
ghost use Rattle.rv_barrel.specs.Showing.{cell_from, cells_from, serials_of, retired_by};

use crate::cell::InFlight;
use rv_asks::Asks;
use rv_harts::{BarrelCell, Event, EventAt, Turn};
use rv_seq::{Commit, StepAnswer, Stop};
use rv_tried::shown;

// Why what stands in a stage is turned, if it is.
fn turn_at(stage: usize, event: &Option<EventAt>) -> Option<Turn>
    ensures { result ≡ specified_turn_at stage event.now }
{
    match event {
        Some(found) => {
            if usize::from(found.stage) != stage {
                return None;
            }
            match found.event {
                Event::Turned(turn, _) => Some(turn),
                Event::Stopped(_) => None,
                Event::Led(_) => None,
            }
        }
        None => None,
    }
}

// The cell of what stands in a slot.
fn cell_of(hart: u8, turned: Option<Turn>, slot: &Option<InFlight>) -> Option<BarrelCell>
    ensures { result ≡ cell_from hart turned slot.now }
{
    match slot {
        None => None,
        Some(one) => Some(BarrelCell {
            hart,
            serial: one.serial,
            at: one.at,
            word: one.word,
            turned,
        }),
    }
}

/// The cells of a hart in a row, stage 0 first.
pub fn cells_of(
    hart: u8,
    event: &Option<EventAt>,
    slots: &[Option<InFlight>],
) -> [Option<BarrelCell>; 5]
    requires { length slots.now ≤ 5 }
    ensures { result ≡ cells_from hart event.now 0 slots.now ++ replicate (5 - length slots.now) None }
{
    let mut all = [None; 5];
    for stage in 0..slots.len() {
        all[stage] = cell_of(hart, turn_at(stage, event), &slots[stage]);
    }
    all
}

/// The serials of what stands in these stages, the oldest first. There are at most five.
pub fn serials_in(slots: &[Option<InFlight>]) -> [Option<u32>; 5]
    requires { length slots.now ≤ 5 }
    ensures { result ≡ in_five (serials_of slots.now) }
{
    let mut serials = [None; 5];
    let mut count = 0;
    for stage in (0..slots.len()).rev() {
        if let Some(one) = &slots[stage] {
            serials[count] = Some(one.serial);
            count += 1;
        }
    }
    serials
}

/// The address that a row names.
pub fn redirect(event: &Option<EventAt>) -> Option<u32>
    ensures { result ≡ redirect_of (event_at event.now) }
{
    match event {
        Some(found) => match found.event {
            Event::Led(at) => Some(at),
            Event::Turned(_, _) => None,
            Event::Stopped(_) => None,
        },
        None => None,
    }
}

/// The stop that an instruction makes in a row, if one does.
pub fn stop_of(event: &Option<EventAt>) -> Option<Stop>
    ensures { result ≡ specified_stop_of (event_at event.now) }
{
    match event {
        Some(found) => match found.event {
            Event::Stopped(stop) => Some(stop),
            Event::Turned(_, _) => None,
            Event::Led(_) => None,
        },
        None => None,
    }
}

// Shows this record of a retirement. It stands apart, since its caller would set room for a record to zero in each row.
#[inline(never)]
fn show_record(serial: u32, asks: &Asks, commit: &Commit, retired: &mut Option<(u32, Commit)>)
    ensures { retired.new ≡ Some (serial, specified_shown asks.now commit.now) }
{
    *retired = Some((serial, shown(asks, commit)));
}

/// Shows what retires out of a slot, with its serial, where a row shows nothing yet. A record is large, and none is written where nothing retires.
pub fn show_retired(slot: &Option<InFlight>, retired: &mut Option<(u32, Commit)>)
    requires { retired.old ≡ None }
    ensures { retired.new ≡ retired_by slot.now }
{
    if let Some(one) = slot {
        if let Some(step) = &one.step {
            if let StepAnswer::Done(commit) = &step.answer {
                show_record(one.serial, &one.asks, commit, retired);
            }
        }
    }
}
