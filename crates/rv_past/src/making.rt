ghost use Rattle.std.specs.Prelude.{ℕ, List, Option, ◌≡◌, ◌≤◌, ◌-◌, ◌++◌, map, take, drop, replicate, Some, None, IfSome};
ghost use Rattle.ix_extension.specs.Extensions.{ExtensionTree};
ghost use Rattle.ix_plan.specs.Units.{unit_written};
ghost use Rattle.rv_seq.specs.Sound.{IsSound};
ghost use Rattle.rv_trace.specs.declared.row.Row.{Row as TraceRow};
ghost use Rattle.rv_trace.specs.Trace.{retirements};
ghost use Rattle.rv_trace.specs.RowParts.{given, in_five};
ghost use Rattle.rv_lawful.specs.Settings.{Setting};
ghost use Rattle.rv_shown.specs.Shown.{shown_in};
ghost use Rattle.rv_rows.specs.Made.{word_or_zero as specified_word_or_zero, no_commit as specified_no_commit, no_writes as specified_no_writes, row_of};
ghost use Rattle.rv_past.specs.Due.{IsDue};
ghost use Rattle.rv_past.specs.Making.{IsWriting, cell_from, record_from, written_from, written_with, retired_from, written_where, IsStored, IsWrittenWide};

use crate::due::Due;
use ix_bits::Bits;
use rv_core::Shape;
use rv_seq::{Commit, Slot, StepAnswer, word_at};
use rv_shown::{ShownCell, ShownRow};
use rv_trace::{Cell, Row};
use rv_tried::{shown, spawn_writes};

// A word that was found, and else 0.
fn word_or_zero(word: Option<u32>) -> u32
    ensures { result ≡ specified_word_or_zero word }
{
    word.unwrap_or(0)
}

// A cell with the word that the image has at its address.
fn cell_made(image: &[u32], cell: Option<ShownCell>) -> Option<Cell>
    ensures { result ≡ cell_from image.now cell }
{
    match cell {
        None => None,
        Some(cell) => Some(Cell {
            serial: cell.serial,
            at: cell.at,
            word: word_or_zero(word_at(image, cell.at)),
            hold: cell.hold,
        }),
    }
}

// The cells of so many stages.
fn cells_made(stages: usize, image: &[u32], cells: &[Option<ShownCell>; 5]) -> [Option<Cell>; 5]
    requires { stages ≤ 5 }
    ensures { result ≡ map (cell_from image.now) (take stages cells.now) ++ replicate (5 - stages) None }
{
    let mut all = [None; 5];
    for stage in 0..stages {
        all[stage] = cell_made(image, cells[stage]);
    }
    all
}

// The serials that are there, in the first places.
fn in_front(flushed: &[Option<u32>; 5]) -> [Option<u32>; 5]
    ensures { result ≡ in_five (given flushed.now) }
{
    let mut all = [None; 5];
    let mut count = 0;
    for one in flushed {
        if let Some(serial) = one {
            all[count] = Some(*serial);
            count += 1;
        }
    }
    all
}

// A record of nothing.
fn no_commit() -> Commit
    ensures { result ≡ specified_no_commit }
{
    Commit {
        at: 0,
        word: 0,
        rd_index: 0,
        rd: Slot::Absent,
        custom: [Slot::Absent; 16],
        store: None,
        next: 0,
    }
}

// The record of a step as its retirement shows it; a stop has none.
fn record_of(due: &Due) -> Commit
    ensures { result ≡ record_from due.now.asks due.now.step.answer }
{
    match &due.step.answer {
        StepAnswer::Done(commit) => shown(&due.asks, commit),
        StepAnswer::Stopped(_) => no_commit(),
    }
}

// What the `spawn` body of a step writes for a serial; a stop writes nothing.
fn written_of(serial: u32, due: &Due) -> (u32, u8, Slot<u32>, [Slot<Bits>; 16])
    ensures { result ≡ written_from due.now.asks due.now.step.own serial due.now.step.answer }
{
    match &due.step.answer {
        StepAnswer::Done(commit) => {
            let writes = spawn_writes(&due.asks, &due.step.own, commit);
            let custom = writes.custom;
            (serial, writes.rd_index, writes.rd, custom)
        }
        StepAnswer::Stopped(_) => no_writes(serial),
    }
}

// A serial that writes nothing.
fn no_writes(serial: u32) -> (u32, u8, Slot<u32>, [Slot<Bits>; 16])
    ensures { result ≡ specified_no_writes serial }
{
    (serial, 0, Slot::Absent, [Slot::Absent; 16])
}

// What is written for a serial, of which this is due.
fn written_for(writing: &Option<(u32, Due)>, serial: u32) -> (u32, u8, Slot<u32>, [Slot<Bits>; 16])
    ensures { result ≡ written_with writing.now serial }
{
    match writing {
        Some((number, due)) if *number == serial => written_of(serial, due),
        _ => no_writes(serial),
    }
}

// What is retired, where a serial is.
fn retired_made(next: &Due, retired: Option<u32>) -> Option<(u32, Commit)>
    ensures { result ≡ retired_from next.now retired }
{
    match retired {
        None => None,
        Some(serial) => Some((serial, record_of(next))),
    }
}

// What is written, where a serial is.
fn written_made(
    writing: &Option<(u32, Due)>,
    written: Option<u32>,
) -> Option<(u32, u8, Slot<u32>, [Slot<Bits>; 16])>
    ensures { result ≡ written_where writing.now written }
{
    match written {
        None => None,
        Some(serial) => Some(written_for(writing, serial)),
    }
}

/// The row of which a text shows this, on a core of this shape: words are the image's, what is retired
/// is the record of the next step of the run, and what is written is what the run writes for the
/// serial that is due. It takes no memory.
pub fn made(
    shape: Shape,
    image: &[u32],
    next: &Due,
    writing: &Option<(u32, Due)>,
    row: &ShownRow,
) -> Row
    requires { shape.stages ≤ 5 }
    ensures row { (k : Setting) (earlier : List TraceRow) (text : List ℕ) → k.shape ≡ shape → k.image ≡ image.now → IsDue k (retirements earlier) next.now → IsWriting k earlier writing.now → result ≡ row_of k earlier (shown_in shape.stages text row.now) }
    ensures taken { result.taken ≡ None }
    ensures stop { result.stop ≡ row.now.stop }
    ensures behind { drop shape.stages result.cells ≡ replicate (5 - shape.stages) None }
    ensures listed { result.flushed ≡ in_five (given result.flushed) }
    ensures stored { (x : ExtensionTree) → IsSound x next.now.step.answer → IsStored result.retired }
    ensures wide { (x : ExtensionTree) → IfSome writing.now (λ w. IsSound x w.1.step.answer) → IsWrittenWide x result.written }
{
    Row {
        cells: cells_made(usize::from(shape.stages), image, &row.cells),
        retired: retired_made(next, row.retired),
        written: written_made(writing, row.written),
        flushed: in_front(&row.flushed),
        redirect: row.redirect,
        taken: None,
        stop: row.stop,
    }
}
