ghost use Rattle.std.specs.Prelude.{◌≡◌, ℕ, ◌<◌, List, ◌∷◌, length, Some, None, slice_get};
ghost use Rattle.ix_extension.specs.WellFormed.{IsWellFormed};
ghost use Rattle.ix_eval.specs.Scratches.{IsScratchOf};
ghost use Rattle.ix_plan.specs.Units.{Slots, frozen_with};
ghost use Rattle.rv_asks.specs.Asks.{IsAskingOf};
ghost use Rattle.rv_asks.specs.declared.asks.Asks.{Asks as AsksValue};
ghost use Rattle.rv_trace.specs.declared.row.Row.{Row as RowValue};
ghost use Rattle.rv_trace.specs.declared.row.Cell.{Cell as CellValue};
ghost use Rattle.rv_trace.specs.Trace.{place as place_in, retirements, newest};
ghost use Rattle.rv_lawful.specs.Settings.{Setting, Stands as StandsIn};
ghost use Rattle.rv_lawful.specs.Outstanding.{units_after};
ghost use Rattle.rv_lawful.specs.LawfulTrace.{IsInForm};
ghost use Rattle.rv_rows.specs.Facts.{IsPlain, AreGoingOn, MovesAbove};
ghost use Rattle.rv_rows.specs.Kinds.{MovesRightly, unit_marked};
ghost use Rattle.rv_watch.specs.Kept.{was_here};
ghost use Rattle.rv_rows.specs.Known.{IsReady, IsKnown, asks_of, stop_in as specified_stop_in};
ghost use Rattle.rv_past.specs.Due.{IsDue};
ghost use Rattle.rv_owing.specs.Owing.{IsOwed};
ghost use Rattle.rv_watch.specs.Seen.{AreSeen};
ghost use Rattle.rv_watch.specs.declared.against.Against.{Against as AgainstValue};
ghost use Rattle.rv_watch.specs.Watched.{setting_of, tree_of, IsFitting, IsWatched, AsksOfRetired};
ghost use Rattle.rv_watch.specs.Parts.{so_far as specified_so_far, TellsPort};

use crate::against::{Against, step_at};
use crate::fit::settings_fit;
use crate::seeing::spawns;
use crate::watch::{Watch, place_at, row_written};
use ix_eval::Scratch;
use rv_asks::Asks;
use rv_owing::owing_facts;
use rv_past::{Due, Step};
use rv_rows::{Known, row_facts};
use rv_seq::{StepAnswer, Stop};
use rv_sight::sight_laws;
use rv_trace::{Cell, Row};

/// What is known before a row is looked at.
pub fn ready(watch: &Watch) -> Known
    ensures { (a : AgainstValue) (rows : List RowValue) → IsWatched a rows watch.now → IsReady (setting_of a) rows result }
{
    Known {
        asks: [None; 5],
        stop: None,
        behind_execute: 0,
        behind_last: 0,
        accesses: false,
        wait: 0,
        stood: 0,
        tailed: 0,
        frozen: false,
        port: false,
        granted: watch.owing.granted(),
        fetch: watch.kept.fetch,
        next: watch.kept.next,
        plain: 0,
        settled: false,
    }
}

// What stands in a stage.
fn cell_at(row: &Row, stage: usize) -> Option<Cell>
    requires { stage < 5 }
    ensures { slice_get row.now.cells stage ≡ Some result }
{
    row.cells[stage]
}

// What the instruction of a cell asks for.
fn asks_of_cell(against: &Against, cell: Option<Cell>) -> Option<Asks>
    requires well_formed { IsWellFormed against.now.design.now.extension }
    ensures { IsAskingOf against.now.design.now against.now.asking.now → result ≡ asks_of (setting_of against.now) cell }
{
    match cell {
        None => None,
        Some(cell) => Some(against.asks(cell.word)),
    }
}

// What the instruction of each stage's cell asks for.
fn asks_in(against: &Against, row: &Row) -> [Option<Asks>; 5]
    requires well_formed { IsWellFormed against.now.design.now.extension }
    ensures { IsAskingOf against.now.design.now against.now.asking.now → (stage : ℕ) (c : CellValue) → stage < 5 → slice_get row.now.cells stage ≡ Some (Some c) → slice_get result stage ≡ Some (Some ((setting_of against.now).asks c.word)) }
{
    let mut all = [None; 5];
    for stage in 0..5usize {
        let cell = cell_at(row, stage);
        all[stage] = asks_of_cell(against, cell);
    }
    all
}

// What is asked of the instruction of a stage's cell.
fn asked_at(asks: &[Option<Asks>; 5], stage: usize) -> Option<Asks>
    requires { stage < 5 }
    ensures { slice_get asks.now stage ≡ Some result }
{
    asks[stage]
}

// The stop of a step.
fn stop_in(step: &Step) -> Option<Stop>
    ensures { result ≡ specified_stop_in step.now.answer }
{
    match &step.answer {
        StepAnswer::Done(_) => None,
        StepAnswer::Stopped(stop) => Some(*stop),
    }
}

// Did the cell of this serial stand here before?
fn was_there(before: Option<Cell>, serial: u32) -> bool
    ensures { result ≡ was_here before serial }
{
    match before {
        None => false,
        Some(cell) => cell.serial == serial,
    }
}

// The number, if the cell stood there in the row before, and else 0.
fn so_far(number: u32, before: Option<Cell>, now: Option<Cell>) -> u32
    ensures { result ≡ specified_so_far number before now }
{
    match now {
        None => 0,
        Some(cell) => {
            if was_there(before, cell.serial) {
                number
            } else {
                0
            }
        }
    }
}

// Whether the unit of the instruction, where it has one, is frozen, as the row says which serial is
// written.
fn frozen(watch: &Watch, asks: Option<Asks>, written: Option<u32>) -> bool
    ensures { (k : Setting) (rows : List RowValue) (a : AsksValue) (u : ℕ) (slots : Slots) → IsOwed k rows watch.now.owing → asks ≡ Some a → a.unit ≡ Some u → slice_get (units_after k rows) u ≡ Some slots
        → result ≡ frozen_with u slots (unit_marked (units_after k rows) written) }
{
    match asks {
        None => false,
        Some(asks) => match asks.unit {
            None => false,
            Some(unit) => watch.owing.frozen(unit, written),
        },
    }
}

// Whether what the row writes has an x register as target.
fn port(watch: &Watch, written: Option<u32>) -> bool
    ensures { (k : Setting) (earlier : List RowValue) (row : RowValue) (j : ℕ) → IsPlain k → AreGoingOn k earlier → MovesAbove k earlier row → AreSeen k earlier watch.now.seen.items → written ≡ Some j → TellsPort k earlier row j result }
{
    match written {
        None => false,
        Some(serial) => spawns(watch.seen.as_slice(), serial),
    }
}

/// What is known of a row that moves rightly behind rows that go on, whose cells stand at these
/// places of the run. The scratch is of the design's extension.
pub fn known(
    against: &Against,
    watch: &Watch,
    row: &Row,
    next: &Due,
    places: &[u32; 5],
    scratch: &mut Scratch,
) -> Known
    requires fits { IsFitting against.now }
    requires watched { (rows : List RowValue) × IsWatched against.now rows watch.now }
    requires scratch { IsScratchOf (tree_of against.now) scratch.old }
    ensures scratch { IsScratchOf (tree_of against.now) scratch.new }
    ensures known { (rows : List RowValue) → IsWatched against.now rows watch.now → (newest rows).stop ≡ None → MovesRightly (setting_of against.now) rows row.now → IsInForm (setting_of against.now) row.now
        → IsDue (setting_of against.now) (retirements rows) next.now → AsksOfRetired (setting_of against.now) row.now next.now
        → ((stage : ℕ) (c : CellValue) → 0 < stage → StandsIn (setting_of against.now) row.now stage c → slice_get places.now stage ≡ Some (place_in (row.now ∷ rows) c.serial))
        → IsKnown (setting_of against.now) rows row.now result }
{
    row_facts();
    owing_facts();
    settings_fit();
    sight_laws();
    let shape = against.design.sheet.shape;
    let execute = usize::from(shape.ex);
    let memory = usize::from(shape.mem);
    let last = usize::from(shape.stages) - 1;
    let asks = asks_in(against, row);
    let asked_last = asked_at(&asks, last);
    let executing = place_at(places, execute);
    let loading = place_at(places, memory);
    let ending = place_at(places, last);
    let step = step_at(&watch.steps, executing as usize);
    let after = step_at(&watch.steps, executing as usize + 1);
    let load = step_at(&watch.steps, loading as usize);
    let end = step_at(&watch.steps, ending as usize + 1);
    let stop = stop_in(&step);
    let wait = against.waits.wait(load.before);
    let was_memory = cell_at(&watch.before, memory);
    let in_memory = cell_at(row, memory);
    let stood = so_far(watch.kept.stood, was_memory, in_memory);
    let was_last = cell_at(&watch.before, last);
    let at_last = cell_at(row, last);
    let tailed = so_far(watch.kept.tailed, was_last, at_last);
    let written = row_written(row);
    let is_frozen = frozen(watch, asked_last, written);
    let is_port = port(watch, written);
    let plain = watch.past.plain(
        &against.design.extension,
        shape,
        row,
        watch.kept.fetch,
        scratch,
    );
    let entering = watch.entering_serial(next, row);
    let settled = watch.owing.settled(written, entering);
    let granted = watch.owing.granted();
    Known {
        asks,
        stop,
        behind_execute: after.pc,
        behind_last: end.pc,
        accesses: load.accesses,
        wait,
        stood,
        tailed,
        frozen: is_frozen,
        port: is_port,
        granted,
        fetch: watch.kept.fetch,
        next: watch.kept.next,
        plain,
        settled,
    }
}
