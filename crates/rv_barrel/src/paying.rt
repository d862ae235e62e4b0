ghost use Rattle.std.specs.Prelude.{◌≡◌, ◌+◌, ◌-◌, ◌<◌, ◌≤◌, ◌++◌, ℕ, List, None, length, vec_capacity, if◌then◌else◌};
ghost use Rattle.ix_extension.specs.Extensions.{view_extension};
ghost use Rattle.ix_extension.specs.WellFormed.{IsWellFormed};
ghost use Rattle.ix_plan.specs.Units.{unit_written, next_units};
ghost use Rattle.rv_harts.specs.HartRows.{written_by};
ghost use Rattle.rv_harts.specs.Harts.{Fetched};
ghost use Rattle.rv_lawful.specs.LawfulTrace.{serial_in};
ghost use Rattle.rv_lawful.specs.Outstanding.{after_written};
ghost use Rattle.rv_lawful.specs.Settings.{Setting};
ghost use Rattle.rv_unit.specs.Slots.{units_of};
ghost use Rattle.rv_unit.specs.Timed.{AreUnits, IsTimed, CanEnter};
ghost use Rattle.rv_barrel.specs.Cells.{AreOwed};
ghost use Rattle.rv_barrel.specs.Owing.{entering_by, owed_by, without_serial, unit_entered};
ghost use Rattle.rv_barrel.specs.Paying.{IsStoredSlot, arch_by};
ghost use Rattle.rv_barrel.specs.Showing.{retired_by};

use crate::cell::{InFlight, Owed};
use crate::owing::{put_last, serial_out, show_written, take_out};
use crate::showing::show_retired;
use ix_plan::Design;
use rv_harts::HartPart;
use rv_past::{pay_written, retire_step};
use rv_seq::{Arch, Commit};
use rv_unit::Units;

// Makes the writes of what retires out of a slot.
fn retire_slot(
    design: &Design,
    slot: &Option<InFlight>,
    retired: &Option<(u32, Commit)>,
    arch: &mut Arch,
)
    requires well_formed { IsWellFormed design.now.extension }
    requires stored { IsStoredSlot slot.now }
    requires retired { retired.now ≡ retired_by slot.now }
    ensures { arch.new ≡ arch_by (view_extension design.now.extension) slot.now arch.old }
{
    if let Some(one) = slot {
        if let Some(step) = &one.step {
            retire_step(&design.extension, step, &one.asks, retired, arch);
        }
    }
}

/// The serial that is written in a row, where the units step in it.
pub fn serial_in_row(steps: bool, units: &Units) -> Option<u32>
    ensures serial { result ≡ (if steps then serial_in (unit_written (units_of units.now.stages units.now.lasts units.now.entries)) else None) }
    ensures units { AreUnits units.now.stages units.now.lasts }
    ensures timed { IsTimed units.now.stages units.now.lasts units.now.entries }
{
    let serial = serial_out(units);
    if steps { serial } else { None }
}

/// Makes the writes of a row: of what goes out of the last stage, of which this is the slot, and of the serial that goes out of the units, if any. The hart's part of the row, in which
/// nothing is written yet, shows both. What retires with a unit is owed from then on, and enters its unit; where the units step in the row they stay as they are until the next one.
pub fn pay(
    design: &Design,
    slot: &Option<InFlight>,
    steps: bool,
    out: Option<u32>,
    arch: &mut Arch,
    units: &mut Units,
    owed: &mut Vec<Owed>,
    part: &mut HartPart,
)
    requires well_formed { IsWellFormed design.now.extension }
    requires stored { IsStoredSlot slot.now }
    requires enters { CanEnter units.old.lasts units.old.entries (unit_entered (entering_by slot.now)) }
    requires room { length (without_serial out owed.old.items ++ owed_by (entering_by slot.now)) ≤ vec_capacity owed.old }
    requires retires { part.old.retired ≡ None }
    requires writes { part.old.written ≡ None }
    ensures retired { part.new.retired ≡ retired_by slot.now }
    ensures written { (k : Setting) (all : List Fetched) → AreOwed k owed.old.items all → part.new.written ≡ written_by k all out }
    ensures arch { arch.new ≡ after_written part.new.written (arch_by (view_extension design.now.extension) slot.now arch.old) }
    ensures units { units_of units.new.stages units.new.lasts units.new.entries ≡ (if steps then units_of units.old.stages units.old.lasts units.old.entries else next_units (unit_entered (entering_by slot.now)) (units_of units.old.stages units.old.lasts units.old.entries)) }
    ensures stages { units.new.stages ≡ units.old.stages }
    ensures lasts { units.new.lasts ≡ units.old.lasts }
    ensures owed { owed.new.items ≡ without_serial out owed.old.items ++ owed_by (entering_by slot.now) }
    ensures capacity { vec_capacity owed.old ≤ vec_capacity owed.new }
{
    show_retired(slot, &mut part.retired);
    show_written(owed.as_slice(), out, &mut part.written);
    retire_slot(design, slot, &part.retired, arch);
    pay_written(&part.written, arch);
    take_out(owed, out);
    let entered = put_last(owed, slot);
    if !steps {
        units.cycle(entered);
    }
}
