ghost use Rattle.std.specs.Prelude.{◌≡◌, ◌<◌, ◌^◌, ℕ, List, None, true, is_some, get_or, length, IfOk};
ghost use Rattle.ix_eval.specs.Scratches.{IsScratchOf};
ghost use Rattle.rv_trace.specs.declared.row.Row.{Row as RowValue};
ghost use Rattle.rv_trace.specs.Trace.{newest, retirements};
ghost use Rattle.rv_lawful.specs.LawfulTrace.{WritesUnit};
ghost use Rattle.rv_shown.specs.Shown.{shown_in};
ghost use Rattle.rv_reader.specs.Forms.{IsRow};
ghost use Rattle.rv_rows.specs.Kinds.{MovesRightly};
ghost use Rattle.rv_rows.specs.Made.{row_of};
ghost use Rattle.rv_rows.specs.Known.{IsKnown};
ghost use Rattle.rv_holdings.specs.Expected.{IsStopper, AsksAtRead};
ghost use Rattle.rv_past.specs.Due.{IsDue};
ghost use Rattle.rv_past.specs.Making.{IsWriting};
ghost use Rattle.rv_watch.specs.Watched.{setting_of, tree_of, IsFitting, IsWatched};
ghost use Rattle.rv_audit.specs.Judged.{is_done as specified_is_done, retires_step as specified_retires_step, is_step_done as specified_is_step_done, writes_step as specified_writes_step, TellsRow, TellsBehind, TellsLines, Judges};

use ix_bits::Memory;
use ix_eval::Scratch;
use rv_asks::Asks;
use rv_holdings::{holds_behind, holds_rightly, is_held};
use rv_marks::{
    fetches_rightly, is_cell_stop, moves_rightly, stops_rightly, succeeds_behind, succeeds_rightly,
    unit_rightly,
};
use rv_owing::owing_facts;
use rv_past::{Due, Page, made};
use rv_rows::{Known, Owed, kinds_are_lawful};
use rv_seq::StepAnswer;
use rv_shown::ShownRow;
use rv_trace::{Cell, Row};
use rv_watch::{Against, Watch, known, places, ready, settings_fit};

/// In what respect a row is not right.
#[derive(Clone, Copy, Debug, PartialEq, Eq)]
pub enum Fault {
    Moves,
    Hold,
    Fetch,
    Successor,
    Unit,
    Stop,
    Commit,
    Write,
}

// What stands in a stage.
fn cell_at(row: &Row, stage: usize) -> Option<Cell>
    ensures { result ≡ get_or row.now.cells stage None }
{
    match row.cells.get(stage) {
        None => None,
        Some(cell) => *cell,
    }
}

// The instruction that stopped the run in this row, where no fetch did.
fn stopper(against: &Against, before: &Row) -> Option<Owed>
    requires fits { IsFitting against.now }
    ensures { (rows : List RowValue) → newest rows ≡ before.now → IsStopper (setting_of against.now) rows result }
{
    if !is_cell_stop(before.stop) {
        return None;
    }
    match cell_at(before, usize::from(against.design.sheet.shape.ex)) {
        None => None,
        Some(cell) => Some(Owed {
            serial: cell.serial,
            asks: against.asks(cell.word),
        }),
    }
}

// What the instruction at RD asks for; that of word 0 where none stands there.
fn asked_at_read(against: &Against, row: &Row) -> Asks
    requires fits { IsFitting against.now }
    ensures { AsksAtRead (setting_of against.now) row.now result }
{
    match cell_at(row, usize::from(against.design.sheet.shape.rd)) {
        None => against.asks(0),
        Some(cell) => against.asks(cell.word),
    }
}

// The first respect in which a row is not right that moves rightly behind a stop: there it is wrong
// in its stop at the latest.
fn behind_stop(against: &Against, watch: &Watch, row: &Row) -> Fault
    requires fits { IsFitting against.now }
    ensures { (rows : List RowValue) → IsWatched against.now rows watch.now → is_some (newest rows).stop ≡ true → MovesRightly (setting_of against.now) rows row.now → TellsBehind (setting_of against.now) rows row.now result }
{
    settings_fit();
    owing_facts();
    let shape = against.design.sheet.shape;
    let known = ready(watch);
    let asks = asked_at_read(against, row);
    let stopped = stopper(against, &watch.before);
    if !holds_behind(shape, &asks, stopped, row) {
        return Fault::Hold;
    }
    if !fetches_rightly(shape, &known, against.image, &watch.before, row) {
        return Fault::Fetch;
    }
    if !succeeds_behind(row) {
        return Fault::Successor;
    }
    if !unit_rightly(&known, row) {
        return Fault::Unit;
    }
    Fault::Stop
}

// The first respect, from its holds to its stop, in which a row is not right that moves rightly
// behind rows that go on.
fn fault_of(against: &Against, watch: &Watch, known: &Known, row: &Row) -> Option<Fault>
    requires fits { IsFitting against.now }
    ensures { (rows : List RowValue) → IsWatched against.now rows watch.now → (newest rows).stop ≡ None → MovesRightly (setting_of against.now) rows row.now → IsKnown (setting_of against.now) rows row.now known.now
        → TellsRow (setting_of against.now) rows row.now result }
{
    settings_fit();
    owing_facts();
    let shape = against.design.sheet.shape;
    let owed = watch.owing.owed.as_slice();
    if !holds_rightly(shape, known, owed, row) {
        return Some(Fault::Hold);
    }
    if !fetches_rightly(shape, known, against.image, &watch.before, row) {
        return Some(Fault::Fetch);
    }
    if !succeeds_rightly(shape, known, row) {
        return Some(Fault::Successor);
    }
    if !unit_rightly(known, row) {
        return Some(Fault::Unit);
    }
    let held = is_held(shape, known, owed, row);
    if !stops_rightly(shape, known, held, against.image, &watch.before, row) {
        return Some(Fault::Stop);
    }
    None
}

// Does the step not stop?
fn is_done(due: &Due) -> bool
    ensures { result ≡ specified_is_done due.now.step.answer }
{
    match &due.step.answer {
        StepAnswer::Done(_) => true,
        StepAnswer::Stopped(_) => false,
    }
}

// Whether what the row retires, where it does, is of a step that does not stop.
fn retires_step(next: &Due, row: &Row) -> bool
    ensures { result ≡ specified_retires_step next.now row.now.retired }
{
    match &row.retired {
        None => true,
        Some(_) => is_done(next),
    }
}

// Whether there is a step that does not stop.
fn is_step_done(writing: &Option<(u32, Due)>) -> bool
    ensures { result ≡ specified_is_step_done writing.now }
{
    match writing {
        None => false,
        Some((_, due)) => is_done(due),
    }
}

// Whether what the row writes, where it does, is of a step that does not stop.
fn writes_step(writing: &Option<(u32, Due)>, row: &Row) -> bool
    ensures { result ≡ specified_writes_step writing.now row.now.written }
{
    match &row.written {
        None => true,
        Some(_) => is_step_done(writing),
    }
}

// In what respect the lines of its writes are not right, of a row whose unit is right.
fn line_fault(
    against: &Against,
    watch: &Watch,
    text: &[u8],
    page: &mut Page,
    next: &Due,
    writing: &Option<(u32, Due)>,
    shown: &ShownRow,
    row: &Row,
) -> Result<Option<Fault>, Memory>
    requires fits { IsFitting against.now }
    ensures { (rows : List RowValue) → IsWatched against.now rows watch.now → IsDue (setting_of against.now) (retirements rows) next.now → IsWriting (setting_of against.now) rows writing.now
        → row.now ≡ row_of (setting_of against.now) rows (shown_in against.now.design.now.sheet.shape.stages text.now shown.now) → WritesUnit (setting_of against.now) rows row.now
        → IfOk result (TellsLines (setting_of against.now) rows (shown_in against.now.design.now.sheet.shape.stages text.now shown.now)) }
{
    settings_fit();
    owing_facts();
    if !retires_step(next, row) {
        return Ok(Some(Fault::Commit));
    }
    let retires = page.retires_rightly(text, shown.retired_line, row.retired)?;
    if !retires {
        return Ok(Some(Fault::Commit));
    }
    if !writes_step(writing, row) {
        return Ok(Some(Fault::Write));
    }
    let writes = page.writes_rightly(text, shown.written_line, &row.written)?;
    if !writes {
        return Ok(Some(Fault::Write));
    }
    Ok(None)
}

/// Judges one row more, which is in form: what is kept goes on, or it is told in what respect the
/// row is not right. The scratch is of the design's extension, and there are fewer than 2^30 rows.
pub fn judge(
    against: &Against,
    text: &[u8],
    watch: &mut Watch,
    page: &mut Page,
    scratch: &mut Scratch,
    shown: &ShownRow,
) -> Result<Option<Fault>, Memory>
    requires fits { IsFitting against.now }
    requires scratch { IsScratchOf (tree_of against.now) scratch.old }
    requires watched { (rows : List RowValue) × IsWatched against.now rows watch.old × (length rows < 2 ^ 30) }
    requires form { (widths : List ℕ) × IsRow widths against.now.design.now.sheet.shape.stages (shown_in against.now.design.now.sheet.shape.stages text.now shown.now) }
    ensures scratch { IsScratchOf (tree_of against.now) scratch.new }
    ensures judged { (rows : List RowValue) → IsWatched against.now rows watch.old → length rows < 2 ^ 30 → Judges against.now rows (shown_in against.now.design.now.sheet.shape.stages text.now shown.now) watch.new result }
{
    settings_fit();
    kinds_are_lawful();
    let shape = against.design.sheet.shape;
    let next = watch.next_due(against);
    let writing = watch.writing();
    let row = made(shape, against.image, &next, &writing, shown);
    if !moves_rightly(shape, &watch.before, &row) {
        return Ok(Some(Fault::Moves));
    }
    if watch.before.stop.is_some() {
        return Ok(Some(behind_stop(against, watch, &row)));
    }
    let seen = watch.seen.as_slice();
    let at = places(shape, watch.kept.retired, seen, &row);
    let known = known(against, watch, &row, &next, &at, scratch);
    let told = fault_of(against, watch, &known, &row);
    if told.is_some() {
        return Ok(told);
    }
    let line = line_fault(against, watch, text, page, &next, &writing, shown, &row)?;
    if line.is_some() {
        return Ok(line);
    }
    watch.go_on(against, &row, &known, &next, &at, scratch)?;
    Ok(None)
}
