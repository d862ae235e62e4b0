ghost use Rattle.std.specs.Prelude.{◌≡◌, ◌↔◌, ℕ, ◌+◌, ◌<◌, ◌≤◌, All, [], Some, None, false, length, slice_get, IfOk, IfSome};
ghost use Rattle.ix_plan.specs.Units.{Slots, unit_written, frozen_with, next_units};
ghost use Rattle.rv_unit.specs.Numbering.{lasts_of as specified_lasts_of};
ghost use Rattle.rv_unit.specs.Entries.{has_finished, writer, is_frozen, written_entry, unit_and_serial, next_entries};
ghost use Rattle.rv_unit.specs.Slots.{unit_named, units_of};
ghost use Rattle.rv_unit.specs.Timed.{AreUnits, IsTimed, CanEnter, room};

use crate::entry::Entry;
use crate::numbering::lasts_of;
use crate::stepping::one_row;
use crate::survey::{Survey, nothing, survey_of};
use ix_bits::Memory;
use ix_plan::Design;
use std::alloc::Global;
use std::marker::Model;

/// The units of a design, and what stands in them. All memory is taken when it is made.
#[derive(Drop)]
pub struct Units {
    stages: u8,
    // The last time of each unit.
    lasts: Vec<u8>,
    // The newest first.
    entries: Vec<Entry>,
    survey: Survey,
}

impl Model for Units {
    ghost use Rattle.std.specs.Prelude.{vec_capacity};
    ghost use Rattle.rv_unit.specs.Standing.{Standing};
    ghost use Rattle.rv_unit.specs.Surveys.{AreKept};

    ghost Value = { Standing };

    ghost view = { λ units. record { stages = units.stages; lasts = units.lasts.items; entries = units.entries.items } };

    ghost invariant = { λ units. AreKept (record { stages = units.stages; lasts = units.lasts.items; entries = units.entries.items }) units.survey (vec_capacity units.entries) };
}

impl Units {
    /// The units of a design, in which nothing stands.
    pub fn new(alloc: Global, design: &Design) -> Result<Units, Memory>
        requires { AreUnits design.now.sheet.shape.stages (specified_lasts_of design.now.plans) }
        ensures stages { IfOk result (λ units. units.stages ≡ design.now.sheet.shape.stages) }
        ensures lasts { IfOk result (λ units. units.lasts ≡ specified_lasts_of design.now.plans) }
        ensures entries { IfOk result (λ units. units.entries ≡ []) }
    {
        let stages = design.sheet.shape.stages;
        let lasts = lasts_of(alloc, design.plans.as_slice())?;
        let places = places_of(stages, lasts.as_slice());
        match Vec::with_capacity(alloc, places) {
            Err(_) => Err(Memory),
            Ok(entries) => Ok(Units {
                stages,
                lasts,
                entries,
                survey: nothing(),
            }),
        }
    }

    /// The unit that writes in this row: the lowest with an entry at its last time.
    pub fn granted(&self) -> Option<u8>
        ensures unit { result ≡ writer self.now.lasts self.now.entries }
        ensures below { IfSome result (λ unit. unit < length self.now.lasts) }
        ensures none { (result ≡ None) ↔ ((u : ℕ) → has_finished self.now.lasts u self.now.entries ≡ false) }
        ensures rule { result ≡ unit_named (unit_written (units_of self.now.stages self.now.lasts self.now.entries)) }
    {
        self.survey.granted
    }

    /// Whether the unit is frozen in this row: it has an entry at its last time, and does not write.
    pub fn frozen(&self, unit: u8) -> bool
        requires { unit < length self.now.lasts }
        ensures frozen { result ≡ is_frozen self.now.lasts self.now.entries unit }
        ensures rule { (slots : Slots) → slice_get (units_of self.now.stages self.now.lasts self.now.entries) unit ≡ Some slots → frozen_with unit slots (unit_written (units_of self.now.stages self.now.lasts self.now.entries)) ≡ result }
    {
        self.survey.is_frozen(unit)
    }

    /// One row: tells the unit and the serial that write, and lets all others go on, with what enters. Takes no memory.
    pub fn cycle(&mut self, enter: Option<(u8, u32)>) -> Option<(u8, u32)>
        requires { CanEnter self.old.lasts self.old.entries enter }
        ensures written { result ≡ unit_and_serial (written_entry self.old.lasts self.old.entries) }
        ensures below { IfSome result (λ written. written.0 < length self.old.lasts) }
        ensures none { (result ≡ None) ↔ ((u : ℕ) → has_finished self.old.lasts u self.old.entries ≡ false) }
        ensures entries { self.new.entries ≡ next_entries self.old.stages self.old.lasts enter self.old.entries }
        ensures lasts { self.new.lasts ≡ self.old.lasts }
        ensures stages { self.new.stages ≡ self.old.stages }
        ensures rule_written { unit_written (units_of self.old.stages self.old.lasts self.old.entries) ≡ result }
        ensures rule_next { next_units enter (units_of self.old.stages self.old.lasts self.old.entries) ≡ units_of self.new.stages self.new.lasts self.new.entries }
    {
        if enter.is_none() && self.entries.is_empty() {
            return None;
        }
        let lasts = self.lasts.as_slice();
        let written = one_row(self.stages, lasts, &mut self.entries, &self.survey, enter);
        self.survey = survey_of(self.lasts.as_slice(), self.entries.as_slice());
        written
    }

    /// How many units there are.
    pub fn count(&self) -> usize
        ensures { result ≡ length self.now.lasts }
    {
        self.lasts.len()
    }

    /// What stands in the units, the newest first.
    pub fn entries(&self) -> &[Entry]
        ensures entries { result.now ≡ self.now.entries }
        ensures units { AreUnits self.now.stages self.now.lasts }
        ensures timed { IsTimed self.now.stages self.now.lasts self.now.entries }
    {
        self.entries.as_slice()
    }
}

/// How many times the units have.
fn places_of(stages: u8, lasts: &[u8]) -> usize
    requires { AreUnits stages lasts.now }
    ensures { result ≡ room stages lasts.now }
{
    let mut places = 0;
    for last in lasts {
        places += usize::from(*last) + 1 - usize::from(stages);
    }
    places
}
