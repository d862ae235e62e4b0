ghost use Rattle.std.specs.Prelude.{◌≡◌, ℕ, List, [], ◌∷◌, Option, Some, None, true, false, slice_get, IfOk, OnOk};
ghost use Rattle.ix_plan.specs.Units.{Slots, first_units, frozen_with};
ghost use Rattle.rv_trace.specs.declared.row.Row.{Row};
ghost use Rattle.rv_lawful.specs.Settings.{Setting};
ghost use Rattle.rv_lawful.specs.Outstanding.{serial_written, entering as specified_entering, units_after, is_written, outstanding};
ghost use Rattle.rv_lawful.specs.LawfulTrace.{serial_in, LawfulRow};
ghost use Rattle.rv_rows.specs.Facts.{IsPlain, AreGoingOn};
ghost use Rattle.rv_rows.specs.Kinds.{unit_marked as specified_unit_marked};
ghost use Rattle.rv_unit.specs.Entries.{last_time};
ghost use Rattle.rv_unit.specs.Numbering.{lasts_of};
ghost use Rattle.rv_unit.specs.Slots.{serial_at};
ghost use Rattle.rv_unit.specs.Timed.{AreUnits, IsTimed};
ghost use Rattle.rv_rows.specs.Recorded.{HasWords, IsRecorded, AreRecorded};
ghost use Rattle.rv_rows.specs.Known.{IsOwing};
ghost use Rattle.rv_owing.specs.Units.{HasUnits};
ghost use Rattle.rv_owing.specs.Owing.{IsOwed, serial_granted, GrantedLaw, AreDueBehind, entering_of};
ghost use Rattle.rv_owing.specs.Kept.{IsLowest};

use crate::laws::owing_facts;
use crate::listed::{
    are_all, into_open, is_none_but, is_serial, is_unit, oldest_in, place_of, put_behind, take_out,
};
use ix_bits::Memory;
use ix_plan::Design;
use rv_asks::Asks;
use rv_rows::{Owed, gone_facts, row_facts};
use rv_unit::{Units, unit_laws};
use std::alloc::Global;

/// How many units a design may have.
const MOST_UNITS: u8 = 72;

/// What is outstanding behind the rows so far.
#[derive(Drop)]
pub struct Owing {
    pub units: Units,
    /// The oldest first.
    pub owed: Vec<Owed>,
    /// Where each of them stands in the run.
    pub places: Vec<u32>,
}

impl Owing {
    /// Nothing is outstanding on the core of a design, and nothing stands in its units.
    pub fn new(alloc: Global, design: &Design) -> Result<Owing, Memory>
        requires { AreUnits design.now.sheet.shape.stages (lasts_of design.now.plans) }
        ensures { IfOk result (λ owing. (k : Setting) → k.shape ≡ design.now.sheet.shape → k.units ≡ first_units design.now.sheet.shape.stages design.now.plans → IsOwed k [] owing) }
    {
        unit_laws();
        let units = Units::new(alloc, design)?;
        Ok(Owing {
            units,
            owed: Vec::new(alloc),
            places: Vec::new(alloc),
        })
    }

    // The serial at the last time of a unit, where one stands there.
    fn finished(&self, unit: u8) -> Option<u32>
        ensures serial { result ≡ serial_at unit (last_time self.now.units.lasts unit) self.now.units.entries }
        ensures units { AreUnits self.now.units.stages self.now.units.lasts }
        ensures timed { IsTimed self.now.units.stages self.now.units.lasts self.now.units.entries }
    {
        let entries = self.units.entries();
        if usize::from(unit) >= self.units.count() {
            return None;
        }
        if is_unit(self.units.granted(), unit) {
            return oldest_in(entries, unit);
        }
        if self.units.frozen(unit) {
            return oldest_in(entries, unit);
        }
        None
    }

    /// The serial that a unit has to write in the next row.
    pub fn granted(&self) -> Option<u32>
        ensures serial { (k : Setting) (rows : List Row) → IsOwed k rows self.now → result ≡ serial_granted k rows }
        ensures units { AreUnits self.now.units.stages self.now.units.lasts }
        ensures timed { IsTimed self.now.units.stages self.now.units.lasts self.now.units.entries }
    {
        let entries = self.units.entries();
        match self.units.granted() {
            None => None,
            Some(unit) => oldest_in(entries, unit),
        }
    }

    /// That serial, its place in the run, and what is asked of its instruction.
    pub fn due(&self) -> Option<(u32, u32, Asks)>
        ensures { (k : Setting) (rows : List Row) → IsOwed k rows self.now → IsOwing k rows → GrantedLaw k rows → AreDueBehind k rows result }
    {
        let Some(serial) = self.granted() else {
            return None
        };
        let Some(at) = place_of(self.owed.as_slice(), serial) else {
            return None
        };
        if at >= self.places.len() {
            return None;
        }
        Some((serial, self.places[at], self.owed[at].asks))
    }

    // The lowest unit with this serial at its last time.
    fn unit_with(&self, serial: u32) -> Option<u8>
        ensures { IsLowest (λ u. serial_at u (last_time self.now.units.lasts u) self.now.units.entries) serial result }
    {
        for unit in 0..MOST_UNITS {
            if is_serial(self.finished(unit), serial) {
                return Some(unit);
            }
        }
        None
    }

    /// Whether the unit is frozen in the next row, where this serial is marked as written.
    pub fn frozen(&self, unit: u8, marked: Option<u32>) -> bool
        ensures { (k : Setting) (rows : List Row) (slots : Slots) → IsOwed k rows self.now → slice_get (units_after k rows) unit ≡ Some slots → result ≡ frozen_with unit slots (specified_unit_marked (units_after k rows) marked) }
    {
        if self.finished(unit).is_none() {
            return false;
        }
        match marked {
            None => true,
            Some(serial) => !is_unit(self.unit_with(serial), unit),
        }
    }

    /// Whether nothing is outstanding behind a row that writes this serial, and in which this one
    /// enters a unit.
    pub fn settled(&self, written: Option<u32>, entering: Option<u32>) -> bool
        ensures { (k : Setting) (earlier : List Row) (row : Row) → IsOwed k earlier self.now → written ≡ serial_written row.written → entering ≡ serial_in (specified_entering k row.retired)
            → ((s : ℕ) → entering ≡ Some s → is_written earlier s ≡ false)
            → (result ≡ true → outstanding k (row ∷ earlier) ≡ []) × (outstanding k (row ∷ earlier) ≡ [] → result ≡ true) }
    {
        if !are_all(written, self.owed.as_slice()) {
            return false;
        }
        is_none_but(written, entering)
    }

    /// One row more, in which this enters its unit: the unit, the serial, its place in the run, and
    /// what is asked of its instruction. What a unit has to write is outstanding no more. Nothing
    /// enters a frozen unit. Fails where there is no memory.
    pub fn next(&mut self, entering: Option<(u8, u32, u32, Asks)>) -> Result<(), Memory>
        ensures { (k : Setting) (earlier : List Row) (row : Row) → IsPlain k → HasUnits k → HasWords k → AreGoingOn k earlier → AreRecorded k earlier → LawfulRow k earlier row → IsRecorded k earlier row
            → entering ≡ entering_of k earlier row.retired → IsOwed k earlier self.old → OnOk result (IsOwed k (row ∷ earlier) self.new) }
    {
        row_facts();
        gone_facts();
        owing_facts();
        let granted = self.granted();
        let enters = into_open(&self.units, entering);
        self.units.cycle(enters);
        take_out(&mut self.owed, &mut self.places, granted);
        put_behind(&mut self.owed, &mut self.places, entering)
    }
}
