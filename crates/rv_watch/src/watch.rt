ghost use Rattle.std.specs.Prelude.{◌≡◌, ℕ, ◌+◌, ◌<◌, ◌≤◌, ◌^◌, List, [], ◌∷◌, Option, length, Some, None, slice_get, OnOk, IfOk};
ghost use Rattle.ix_extension.specs.WellFormed.{IsWellFormed};
ghost use Rattle.ix_eval.specs.Scratches.{IsScratchOf};
ghost use Rattle.rv_asks.specs.declared.asks.Asks.{Asks as AsksValue};
ghost use Rattle.rv_past.specs.Steps.{AreSteps};
ghost use Rattle.rv_trace.specs.declared.row.Row.{Row as RowValue};
ghost use Rattle.rv_trace.specs.declared.row.Cell.{Cell as CellValue};
ghost use Rattle.rv_trace.specs.Trace.{place as place_in, retirements, newest, blank as specified_blank};
ghost use Rattle.rv_lawful.specs.Settings.{Setting, Stands as StandsIn};
ghost use Rattle.rv_lawful.specs.Outstanding.{serial_written};
ghost use Rattle.rv_lawful.specs.LawfulTrace.{serial_in, LawfulRow};
ghost use Rattle.rv_rows.specs.Recorded.{IsRecorded};
ghost use Rattle.rv_rows.specs.Made.{retired_made};
ghost use Rattle.rv_watch.specs.Kept.{IsKept};
ghost use Rattle.rv_rows.specs.Known.{IsKnown};
ghost use Rattle.rv_past.specs.Due.{IsDue};
ghost use Rattle.rv_past.specs.Making.{IsWriting};
ghost use Rattle.rv_owing.specs.Kept.{unit_entering};
ghost use Rattle.rv_watch.specs.declared.against.Against.{Against as AgainstValue};
ghost use Rattle.rv_watch.specs.Watched.{ahead, setting_of, tree_of, IsFitting, IsWatched, AsksOfRetired};
ghost use Rattle.rv_watch.specs.Parts.{entering_by, does_spawn as specified_does_spawn, IsDueStep};

use crate::against::{Against, step_at};
use crate::fit::settings_fit;
use crate::kept::{Kept, keep};
use crate::seeing::{nothing_seen, see};
use crate::seen::Seen;
use ix_bits::Memory;
use ix_eval::Scratch;
use rv_asks::Asks;
use rv_owing::{Owing, owing_facts};
use rv_past::{Due, Past, Steps, one_more, sound_steps};
use rv_rows::{Known, gone_facts, row_facts};
use rv_sight::sight_laws;
use rv_trace::{Cell, Row};
use std::alloc::Global;

/// How many steps of the run are known beyond what is retired.
const AHEAD: usize = 6;

/// What is kept of the rows so far.
#[derive(Drop)]
pub struct Watch {
    pub kept: Kept,
    /// The newest row.
    pub before: Row,
    /// By serial.
    pub seen: Vec<Seen>,
    pub steps: Steps,
    pub owing: Owing,
    pub past: Past,
}

// A row with nothing in it.
fn blank() -> Row
    ensures { result ≡ specified_blank }
{
    Row {
        cells: [None; 5],
        retired: None,
        written: None,
        flushed: [None; 5],
        redirect: None,
        taken: None,
        stop: None,
    }
}

// One step more, where too few are known beyond so many.
fn go_ahead(
    against: &Against,
    steps: &mut Steps,
    retired: u32,
    scratch: &mut Scratch,
) -> Result<(), Memory>
    requires well_formed { IsWellFormed against.now.design.now.extension }
    requires scratch { IsScratchOf (tree_of against.now) scratch.old }
    requires steps { AreSteps (tree_of against.now) against.now.image.now steps.old }
    requires few { length steps.old.steps < 2 ^ 31 }
    ensures scratch { IsScratchOf (tree_of against.now) scratch.new }
    ensures steps { OnOk result (AreSteps (tree_of against.now) against.now.image.now steps.new) }
    ensures many { OnOk result (retired + ahead ≤ length steps.old.steps + 1 → retired + ahead ≤ length steps.new.steps) }
    ensures more { OnOk result (length steps.old.steps ≤ length steps.new.steps) }
    ensures most { OnOk result ((n : ℕ) → retired ≤ n → length steps.old.steps ≤ n + ahead → length steps.new.steps ≤ n + ahead) }
{
    if steps.steps.len() >= retired as usize + AHEAD {
        return Ok(());
    }
    one_more(&against.design.extension, against.image, steps, scratch)?;
    Ok(())
}

// The first steps of the run.
fn first_steps(alloc: Global, against: &Against, scratch: &mut Scratch) -> Result<Steps, Memory>
    requires well_formed { IsWellFormed against.now.design.now.extension }
    requires scratch { IsScratchOf (tree_of against.now) scratch.old }
    ensures scratch { IsScratchOf (tree_of against.now) scratch.new }
    ensures steps { IfOk result (λ steps. AreSteps (tree_of against.now) against.now.image.now steps) }
    ensures count { IfOk result (λ steps. length steps.steps ≡ ahead) }
{
    let mut steps = Steps::new(alloc, &against.design.extension)?;
    for _ in 0..AHEAD {
        one_more(
            &against.design.extension,
            against.image,
            &mut steps,
            scratch,
        )?;
    }
    Ok(steps)
}

// What is kept before the first row.
fn nothing_kept() -> Kept
    ensures fetch { result.fetch ≡ 0 }
    ensures next { result.next ≡ 0 }
    ensures retired { result.retired ≡ 0 }
    ensures stood { result.stood ≡ 0 }
    ensures tailed { result.tailed ≡ 0 }
{
    Kept {
        fetch: 0,
        next: 0,
        retired: 0,
        stood: 0,
        tailed: 0,
    }
}

// The place of what stands in a stage.
pub fn place_at(places: &[u32; 5], stage: usize) -> u32
    requires { stage < 5 }
    ensures { slice_get places.now stage ≡ Some result }
{
    places[stage]
}

// What is asked of the instruction of a stage's cell.
fn asks_at(known: &Known, stage: usize) -> Option<Asks>
    requires { stage < 5 }
    ensures { slice_get known.now.asks stage ≡ Some result }
{
    known.asks[stage]
}

// Whether the `spawn` body of an instruction writes an x register.
fn does_spawn(asks: Option<Asks>) -> bool
    ensures { result ≡ specified_does_spawn asks }
{
    match asks {
        None => false,
        Some(asks) => asks.spawned.is_some(),
    }
}

// The step at a place, of whose instruction this is asked, where something is asked.
fn due_at(steps: &Steps, place: u32, asks: Option<Asks>, other: &Due) -> Due
    requires some { 0 < length steps.now.steps }
    ensures asks { (a : AsksValue) → asks ≡ Some a → result.asks ≡ a }
    ensures step { (a : AsksValue) → asks ≡ Some a → place < length steps.now.steps → slice_get steps.now.steps place ≡ Some result.step }
{
    match asks {
        None => *other,
        Some(asks) => {
            let step = step_at(steps, place as usize);
            Due { step, asks }
        }
    }
}

// Of a serial that is due, with its place and what is asked, the serial with its step.
fn due_step(steps: &Steps, due: Option<(u32, u32, Asks)>) -> Option<(u32, Due)>
    requires some { 0 < length steps.now.steps }
    ensures { IsDueStep steps.now.steps due result }
{
    match due {
        None => None,
        Some((serial, place, asks)) => {
            let step = step_at(steps, place as usize);
            Some((serial, Due { step, asks }))
        }
    }
}

impl Watch {
    /// Before the first row. The scratch is of the design's extension.
    pub fn new(alloc: Global, against: &Against, scratch: &mut Scratch) -> Result<Watch, Memory>
        requires fits { IsFitting against.now }
        requires scratch { IsScratchOf (tree_of against.now) scratch.old }
        ensures scratch { IsScratchOf (tree_of against.now) scratch.new }
        ensures watched { IfOk result (IsWatched against.now []) }
    {
        sight_laws();
        let steps = first_steps(alloc, against, scratch)?;
        let owing = Owing::new(alloc, against.design)?;
        let past = Past::new(alloc, &against.design.extension)?;
        Ok(Watch {
            kept: nothing_kept(),
            before: blank(),
            seen: nothing_seen(alloc),
            steps,
            owing,
            past,
        })
    }

    /// The step that is retired next, and what is asked of its instruction; of word 0, as of the
    /// record that is made of it, where it stops.
    pub fn next_due(&self, against: &Against) -> Due
        requires fits { IsFitting against.now }
        requires steps { 0 < length self.now.steps.steps }
        ensures due { (rows : List RowValue) → IsWatched against.now rows self.now → IsDue (setting_of against.now) (retirements rows) result }
        ensures asks { (rows : List RowValue) (row : RowValue) (retired : Option ℕ) → IsWatched against.now rows self.now → row.retired ≡ retired_made (setting_of against.now) rows retired → AsksOfRetired (setting_of against.now) row result }
    {
        against.due(&self.steps, self.kept.retired)
    }

    /// The serial that a unit has to write, and its step.
    pub fn writing(&self) -> Option<(u32, Due)>
        requires steps { 0 < length self.now.steps.steps }
        ensures { (a : AgainstValue) (rows : List RowValue) → IsFitting a → IsWatched a rows self.now → IsWriting (setting_of a) rows result }
    {
        settings_fit();
        gone_facts();
        owing_facts();
        let due = self.owing.due();
        due_step(&self.steps, due)
    }

    // The unit, the serial, the place and what is asked of what the row retires, where its
    // instruction has a unit.
    fn entering(&self, next: &Due, row: &Row) -> Option<(u8, u32, u32, Asks)>
        ensures { result ≡ entering_by next.now self.now.kept.retired row.now.retired }
    {
        match &row.retired {
            None => None,
            Some(retired) => match next.asks.unit {
                None => None,
                Some(unit) => Some((unit, retired.0, self.kept.retired, next.asks)),
            },
        }
    }

    /// The serial of what the row retires, where its instruction has a unit.
    pub fn entering_serial(&self, next: &Due, row: &Row) -> Option<u32>
        ensures { result ≡ serial_in (unit_entering (entering_by next.now self.now.kept.retired row.now.retired)) }
    {
        match self.entering(next, row) {
            None => None,
            Some((_, serial, _, _)) => Some(serial),
        }
    }

    /// One lawful row more that shows the run, of which this is known, with the step that it may
    /// retire and the places of its cells.
    pub fn go_on(
        &mut self,
        against: &Against,
        row: &Row,
        known: &Known,
        next: &Due,
        places: &[u32; 5],
        scratch: &mut Scratch,
    ) -> Result<(), Memory>
        requires fits { IsFitting against.now }
        requires scratch { IsScratchOf (tree_of against.now) scratch.old }
        requires watched { (rows : List RowValue) × IsWatched against.now rows self.old × (length rows < 2 ^ 30) × LawfulRow (setting_of against.now) rows row.now × IsRecorded (setting_of against.now) rows row.now × IsKnown (setting_of against.now) rows row.now known.now }
        ensures scratch { IsScratchOf (tree_of against.now) scratch.new }
        ensures watched { OnOk result ((rows : List RowValue) → IsWatched against.now rows self.old → (length rows < 2 ^ 30) → LawfulRow (setting_of against.now) rows row.now → IsRecorded (setting_of against.now) rows row.now
            → ((newest rows).stop ≡ None) → IsKnown (setting_of against.now) rows row.now known.now → IsDue (setting_of against.now) (retirements rows) next.now
            → ((stage : ℕ) (c : CellValue) → 0 < stage → StandsIn (setting_of against.now) row.now stage c → slice_get places.now stage ≡ Some (place_in (row.now ∷ rows) c.serial))
            → IsWatched against.now (row.now ∷ rows) self.new) }
    {
        row_facts();
        gone_facts();
        sound_steps();
        settings_fit();
        let shape = against.design.sheet.shape;
        let execute = usize::from(shape.ex);
        let place = place_at(places, execute);
        let executing = asks_at(known, execute);
        let executed = due_at(&self.steps, place, executing, next);
        let entering = self.entering(next, row);
        let first = asks_at(known, 0);
        let spawns = does_spawn(first);
        see(&mut self.seen, row, spawns)?;
        self.owing.next(entering)?;
        self.past
            .next(&against.design.extension, shape, row, next, &executed);
        self.kept = keep(shape, self.kept, &self.before, row, known.plain);
        self.before = *row;
        go_ahead(against, &mut self.steps, self.kept.retired, scratch)?;
        Ok(())
    }
}

/// The serial that the row writes.
pub fn row_written(row: &Row) -> Option<u32>
    ensures { result ≡ serial_written row.now.written }
{
    match &row.written {
        None => None,
        Some(written) => Some(written.0),
    }
}
