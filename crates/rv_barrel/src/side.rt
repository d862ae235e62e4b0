ghost use Rattle.std.specs.Prelude.{◌≡◌, ◌+◌, ◌-◌, ◌<◌, ◌%◌, ◌==◌, ◌^◌, ◌&&◌, None, ℕ, List, suc, take, drop, length, get_or, nat_le, vec_capacity, not, if◌then◌else◌, IfOk, IfSome};
ghost use Rattle.ix_extension.specs.Extensions.{view_extension};
ghost use Rattle.ix_extension.specs.WellFormed.{IsWellFormed};
ghost use Rattle.ix_eval.specs.Scratches.{IsScratchOf};
ghost use Rattle.rv_asks.specs.Asks.{IsAskingOf};
ghost use Rattle.rv_seq.specs.WordEffects.{AreWide};
ghost use Rattle.rv_harts.specs.BarrelRows.{hart_setting};
ghost use Rattle.rv_harts.specs.HartRows.{hart_row, below as specified_below, lost as specified_lost};
ghost use Rattle.rv_hart_runs.specs.HartRuns.{KnownHart};
ghost use Rattle.rv_unit.specs.Numbering.{lasts_of};
ghost use Rattle.rv_unit.specs.Timed.{AreUnits};
ghost use Rattle.rv_barrel.specs.Cells.{count};
ghost use Rattle.rv_barrel.specs.Moving.{advanced, all_free, ahead_of, IsSoundSlot};
ghost use Rattle.rv_barrel.specs.Sides.{IsSide, IsKept, stop_by};

use crate::cell::{Front, InFlight, Owed};
use crate::events::event_from;
use crate::moving::{advance, free, front_after, go_on, lost, prepare};
use crate::paying::{pay, serial_in_row};
use crate::showing::{cells_of, redirect, serials_in, stop_of};
use ix_bits::Memory;
use ix_eval::Scratch;
use ix_plan::Design;
use rv_asks::Asking;
use rv_core::Shape;
use rv_harts::{BarrelCell, EventAt, HartPart};
use rv_past::sound_steps;
use rv_seq::{Arch, Stop};
use rv_unit::{Units, unit_laws};
use std::alloc::Global;

/// What a hart has between rows.
#[derive(Drop)]
pub struct Side {
    /// What stands in the stages as the next row begins; stage 0 is free.
    slots: [Option<InFlight>; 5],
    pub front: Front,
    /// The state behind all that has left EX.
    ahead: Arch,
    /// The architectural state.
    pub arch: Arch,
    units: Units,
    /// What is retired and not written, the oldest first.
    pub owed: Vec<Owed>,
}

/// A hart before its first row. All memory that its rows use is taken here.
pub fn first_side(alloc: Global, design: &Design) -> Result<Side, Memory>
    requires well_formed { IsWellFormed design.now.extension }
    requires units { AreUnits design.now.sheet.shape.stages (lasts_of design.now.plans) }
    ensures { (image : List ℕ) (h : ℕ) → IfOk result (λ side. IsKept (view_extension design.now.extension) (hart_setting design.now image) h 0 side) }
{
    unit_laws();
    let units = Units::new(alloc, design)?;
    let Ok(owed) = Vec::with_capacity(alloc, units.count()) else {
        return Err(Memory);
    };
    let ahead = Arch::new(alloc, &design.extension)?;
    let arch = Arch::new(alloc, &design.extension)?;
    Ok(Side {
        slots: [None; 5],
        front: Front {
            fetch: 0,
            next: 0,
            stopped: false,
        },
        ahead,
        arch,
        units,
        owed,
    })
}

// May a hart fetch in a row?
fn may_fetch_in(hart: u8, row: u32, front: Front) -> bool
    ensures { result ≡ (((row % 2) == hart) && not front.stopped) }
{
    row % 2 == u32::from(hart) && !front.stopped
}

// Do the units of a hart step in a row? It has no cell in the last stage then.
fn steps_in(shape: Shape, hart: u8, row: u32, front: Front) -> bool
    ensures { result ≡ (not (((row + (shape.stages - 1)) % 2) == hart) && not front.stopped) }
{
    (row % 2 + u32::from(shape.stages - 1)) % 2 != u32::from(hart) && !front.stopped
}

// Does nothing stand in these stages?
fn is_idle(slots: &[Option<InFlight>]) -> bool
    ensures { result ≡ (count slots.now == 0) }
{
    match slots {
        [] => true,
        [None, older @ ..] => is_idle(older),
        [Some(_), ..] => false,
    }
}

// Why the hart stops in a row, where an instruction makes this stop, if one does.
fn stopping(
    stop: Option<Stop>,
    may_fetch: bool,
    slots: &[Option<InFlight>],
    owed: &[Owed],
) -> Option<Stop>
    ensures { result ≡ stop_by stop (may_fetch && (count slots.now == 0) && (length owed.now == 0)) }
{
    match stop {
        None => {
            if may_fetch && is_idle(slots) && owed.is_empty() {
                Some(Stop::Fetch)
            } else {
                None
            }
        }
        found => found,
    }
}

// How many stages have younger ones, which are flushed.
fn below(event: &Option<EventAt>) -> u8
    ensures { result ≡ specified_below event.now }
{
    match event {
        None => 0,
        Some(found) => found.stage,
    }
}

// The stages and the state ahead, behind a row with this event.
fn settle(
    design: &Design,
    event: &Option<EventAt>,
    stops: bool,
    slots: &mut [Option<InFlight>],
    ahead: &mut Arch,
)
    requires inside { design.now.sheet.shape.ex < length slots.old }
    requires event { IfSome event.now (λ e. e.stage < 255) }
    requires wide { AreWide (view_extension design.now.extension) ahead.old.custom }
    requires sound { IsSoundSlot (view_extension design.now.extension) (get_or slots.old design.now.sheet.shape.ex None) }
    ensures slots { slots.new ≡ (if stops then all_free slots.old else advanced (specified_lost event.now) 0 None slots.old) }
    ensures ahead { ahead.new ≡ (if nat_le (specified_lost event.now) design.now.sheet.shape.ex then ahead_of (get_or slots.old design.now.sheet.shape.ex None) ahead.old else ahead.old) }
    ensures wide { AreWide (view_extension design.now.extension) ahead.new.custom }
{
    let gone = lost(event);
    let execute = design.sheet.shape.ex;
    if gone <= execute {
        go_on(design, &slots[usize::from(execute)], ahead);
    }
    if stops {
        free(slots);
    } else {
        advance(slots, usize::from(gone));
    }
}

// One row of a hart over the stages of its core, and what it has after the row.
fn row_in(
    design: &Design,
    asking: &Asking,
    image: &[u32],
    hart: u8,
    row: u32,
    slots: &mut [Option<InFlight>],
    front: &mut Front,
    ahead: &mut Arch,
    arch: &mut Arch,
    units: &mut Units,
    owed: &mut Vec<Owed>,
    scratch: &mut Scratch,
    part: &mut HartPart,
) -> [Option<BarrelCell>; 5]
    requires well_formed { IsWellFormed design.now.extension }
    requires asking { IsAskingOf design.now asking.now }
    requires scratch { IsScratchOf (view_extension design.now.extension) scratch.old }
    requires row { row + 1 < 2 ^ 32 }
    requires known { KnownHart (hart_setting design.now image.now) hart row }
    requires side { IsSide (view_extension design.now.extension) (hart_setting design.now image.now) hart row slots.old front.old ahead.old arch.old units.old owed.old.items (vec_capacity owed.old) }
    requires retires { part.old.retired ≡ None }
    requires writes { part.old.written ≡ None }
    ensures scratch { IsScratchOf (view_extension design.now.extension) scratch.new }
    ensures cells { result ≡ (hart_row (hart_setting design.now image.now) hart row).cells }
    ensures part { part.new ≡ (hart_row (hart_setting design.now image.now) hart row).part }
    ensures side { IsSide (view_extension design.now.extension) (hart_setting design.now image.now) hart (suc row) slots.new front.new ahead.new arch.new units.new owed.new.items (vec_capacity owed.new) }
{
    unit_laws();
    sound_steps();
    let shape = design.sheet.shape;
    let may_fetch = may_fetch_in(hart, row, *front);
    let steps = steps_in(shape, hart, row, *front);
    let new = prepare(
        design, asking, image, may_fetch, *front, ahead, slots, scratch,
    );
    let out = serial_in_row(steps, units);
    let event = event_from(shape, front.fetch, 0, slots, owed.as_slice(), out);
    let cells = cells_of(hart, &event, slots);
    let flushed = serials_in(&slots[..usize::from(below(&event))]);
    let last = &slots[usize::from(shape.stages) - 1];
    pay(design, last, steps, out, arch, units, owed, part);
    let stop = stopping(stop_of(&event), may_fetch, slots, owed.as_slice());
    *front = front_after(*front, new, &event, stop.is_some());
    settle(design, &event, stop.is_some(), slots, ahead);
    part.flushed = flushed;
    part.redirect = redirect(&event);
    part.stop = stop;
    cells
}

// The same of the slots that are kept, of which the core has the first ones as stages.
fn row_over(
    design: &Design,
    asking: &Asking,
    image: &[u32],
    hart: u8,
    row: u32,
    slots: &mut [Option<InFlight>; 5],
    front: &mut Front,
    ahead: &mut Arch,
    arch: &mut Arch,
    units: &mut Units,
    owed: &mut Vec<Owed>,
    scratch: &mut Scratch,
    part: &mut HartPart,
) -> [Option<BarrelCell>; 5]
    requires well_formed { IsWellFormed design.now.extension }
    requires asking { IsAskingOf design.now asking.now }
    requires scratch { IsScratchOf (view_extension design.now.extension) scratch.old }
    requires row { row + 1 < 2 ^ 32 }
    requires known { KnownHart (hart_setting design.now image.now) hart row }
    requires side { IsSide (view_extension design.now.extension) (hart_setting design.now image.now) hart row (take design.now.sheet.shape.stages slots.old) front.old ahead.old arch.old units.old owed.old.items (vec_capacity owed.old) }
    requires retires { part.old.retired ≡ None }
    requires writes { part.old.written ≡ None }
    ensures scratch { IsScratchOf (view_extension design.now.extension) scratch.new }
    ensures cells { result ≡ (hart_row (hart_setting design.now image.now) hart row).cells }
    ensures part { part.new ≡ (hart_row (hart_setting design.now image.now) hart row).part }
    ensures side { IsSide (view_extension design.now.extension) (hart_setting design.now image.now) hart (suc row) (take design.now.sheet.shape.stages slots.new) front.new ahead.new arch.new units.new owed.new.items (vec_capacity owed.new) }
{
    let stages = usize::from(design.sheet.shape.stages);
    row_in(
        design,
        asking,
        image,
        hart,
        row,
        &mut slots[..stages],
        front,
        ahead,
        arch,
        units,
        owed,
        scratch,
        part,
    )
}

/// One row of a hart over its image, and what it has after the row. It takes no memory.
pub fn row_of(
    design: &Design,
    asking: &Asking,
    image: &[u32],
    hart: u8,
    row: u32,
    side: &mut Side,
    scratch: &mut Scratch,
    part: &mut HartPart,
) -> [Option<BarrelCell>; 5]
    requires well_formed { IsWellFormed design.now.extension }
    requires asking { IsAskingOf design.now asking.now }
    requires scratch { IsScratchOf (view_extension design.now.extension) scratch.old }
    requires row { row + 1 < 2 ^ 32 }
    requires known { KnownHart (hart_setting design.now image.now) hart row }
    requires side { IsKept (view_extension design.now.extension) (hart_setting design.now image.now) hart row side.old }
    requires retires { part.old.retired ≡ None }
    requires writes { part.old.written ≡ None }
    ensures scratch { IsScratchOf (view_extension design.now.extension) scratch.new }
    ensures cells { result ≡ (hart_row (hart_setting design.now image.now) hart row).cells }
    ensures part { part.new ≡ (hart_row (hart_setting design.now image.now) hart row).part }
    ensures side { IsKept (view_extension design.now.extension) (hart_setting design.now image.now) hart (suc row) side.new }
{
    row_over(
        design,
        asking,
        image,
        hart,
        row,
        &mut side.slots,
        &mut side.front,
        &mut side.ahead,
        &mut side.arch,
        &mut side.units,
        &mut side.owed,
        scratch,
        part,
    )
}
