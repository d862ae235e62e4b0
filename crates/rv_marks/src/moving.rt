ghost use Rattle.std.specs.Prelude.{◌≡◌, ◌-◌, List, Some, take, true};
ghost use Rattle.rv_trace.specs.declared.row.Row.{Row as RowValue};
ghost use Rattle.rv_trace.specs.Trace.{newest};
ghost use Rattle.rv_lawful.specs.Settings.{Setting};
ghost use Rattle.rv_rows.specs.Facts.{IsPlain};
ghost use Rattle.rv_rows.specs.Kinds.{is_of_cell, with_cell as specified_with_cell, kept_back as specified_kept_back, MovesRightly};
ghost use Rattle.rv_marks.specs.Marks.{in_stage as specified_in_stage, moved_into, moved_above, moved_with, moved_on, has_kept, lacks as specified_lacks, lacks_moved, is_new as specified_is_new, flushed_free, is_bare as specified_is_bare, stops_bare, retired_as, moves_as, cells_in, cell_at};

use crate::names::{cell_in, front, is_among, is_same, leaves, name, stages, stays};
use rv_core::Shape;
use rv_seq::{Commit, Stop};
use rv_trace::{Cell, Hold, Row};

/// Whether a cell makes this stop: it is any but Fetch.
pub fn is_cell_stop(stop: Option<Stop>) -> bool
    ensures { result ≡ is_of_cell stop }
{
    match stop {
        None => false,
        Some(Stop::Fetch) => false,
        Some(Stop::Ecall) => true,
        Some(Stop::Ebreak) => true,
        Some(Stop::Illegal) => true,
        Some(Stop::Misaligned) => true,
        Some(Stop::DataRange) => true,
        Some(Stop::Target) => true,
    }
}

/// Whether a stage has the cell that stayed or the one that came. They are never both there.
fn in_stage(
    stayed: Option<(u32, u32, u32)>,
    came: Option<(u32, u32, u32)>,
    now: Option<(u32, u32, u32)>,
) -> bool
    ensures { result ≡ specified_in_stage stayed came now }
{
    match stayed {
        None => is_same(now, came),
        Some(_) => came.is_none() && is_same(now, stayed),
    }
}

/// Whether each cell stands where the row before puts it, with what comes into the first stage.
fn moves_into(
    before: &Row,
    came: Option<(u32, u32, u32)>,
    was: &[Option<Cell>],
    now: &[Option<Cell>],
) -> bool
    ensures { result ≡ moved_into before.now came was.now now.now }
{
    match was {
        [] => now.is_empty(),
        [old, was_rest @ ..] => match now {
            [] => false,
            [new, now_rest @ ..] => {
                if !in_stage(stays(before, *old), came, name(*new)) {
                    return false;
                }
                moves_into(before, leaves(before, *old), was_rest, now_rest)
            }
        },
    }
}

/// Whether each cell above stage 0 does.
fn moves_above(before: &Row, was: &[Option<Cell>], now: &[Option<Cell>]) -> bool
    ensures { result ≡ moved_above before.now was.now now.now }
{
    match was {
        [] => now.is_empty(),
        [old, was_rest @ ..] => match now {
            [] => false,
            [_, now_rest @ ..] => moves_into(before, leaves(before, *old), was_rest, now_rest),
        },
    }
}

/// These cells with another one in a stage.
fn with_cell(cells: &[Option<Cell>; 5], stage: usize, cell: Option<Cell>) -> [Option<Cell>; 5]
    ensures { result ≡ specified_with_cell stage cell cells.now }
{
    let mut changed = *cells;
    if stage < changed.len() {
        changed[stage] = cell;
    }
    changed
}

/// A cell that is held.
fn kept_back(cell: Option<Cell>) -> Option<Cell>
    ensures { result ≡ specified_kept_back (Some cell) }
{
    match cell {
        None => None,
        Some(cell) => Some(Cell {
            serial: cell.serial,
            at: cell.at,
            word: cell.word,
            hold: Some(Hold::Behind),
        }),
    }
}

/// Whether the cells move where this one stands in EX.
fn moves_with(shape: Shape, cell: Option<Cell>, before: &Row, row: &Row) -> bool
    ensures { result ≡ moved_with shape cell before.now row.now }
{
    let cells = with_cell(&before.cells, usize::from(shape.ex), cell);
    moves_above(before, stages(shape, &cells), stages(shape, &row.cells))
}

/// Whether the cells above stage 0 stand where the row before puts them. Behind a stop its cell is
/// gone or stays.
fn moves_on(shape: Shape, before: &Row, row: &Row) -> bool
    ensures { result ≡ moved_on shape before.now row.now }
{
    let was = stages(shape, &before.cells);
    if is_cell_stop(before.stop) {
        let cell = cell_in(was, usize::from(shape.ex));
        moves_with(shape, None, before, row) || moves_with(shape, kept_back(cell), before, row)
    } else {
        moves_above(before, was, stages(shape, &row.cells))
    }
}

/// Whether a cell that is held in stage 0 is still there.
fn keeps(kept: Option<(u32, u32, u32)>, now: Option<(u32, u32, u32)>) -> bool
    ensures { result ≡ has_kept kept now }
{
    kept.is_none() || is_same(now, kept)
}

/// Whether no cell has this serial.
pub fn lacks(serial: u32, cells: &[Option<Cell>]) -> bool
    ensures { result ≡ specified_lacks serial cells.now }
{
    for cell in cells {
        if let Some(cell) = cell {
            if cell.serial == serial {
                return false;
            }
        }
    }
    true
}

/// Whether what stands in stage 0 stood nowhere in the row before, but where it stays.
fn is_new(before: &Row, first: Option<Cell>, was: &[Option<Cell>]) -> bool
    ensures { result ≡ specified_is_new before.now first was.now }
{
    let Some(cell) = first else {
        return true;
    };
    match was {
        [] => true,
        [old, rest @ ..] => {
            if stays(before, *old).is_none() && !lacks(cell.serial, &[*old]) {
                return false;
            }
            lacks(cell.serial, rest)
        }
    }
}

/// Whether what is flushed shows no hold.
fn are_flushed_free(row: &Row, cells: &[Option<Cell>]) -> bool
    ensures { result ≡ flushed_free row.now cells.now }
{
    for cell in cells {
        if let Some(cell) = cell {
            if cell.hold.is_some() && is_among(&row.flushed, cell.serial) {
                return false;
            }
        }
    }
    true
}

/// Whether a cell shows no hold and is not flushed.
fn is_bare(row: &Row, cell: Option<Cell>) -> bool
    ensures { result ≡ specified_is_bare row.now cell }
{
    match cell {
        None => true,
        Some(cell) => cell.hold.is_none() && !is_among(&row.flushed, cell.serial),
    }
}

/// Whether this is so of a cell that stops the run.
fn stops_alone(row: &Row, cell: Option<Cell>) -> bool
    ensures { result ≡ stops_bare row.now cell }
{
    !is_cell_stop(row.stop) || is_bare(row, cell)
}

/// Whether what leaves the last stage retires.
fn retires(retired: &Option<(u32, Commit)>, left: Option<(u32, u32, u32)>) -> bool
    ensures { result ≡ retired_as retired.now left }
{
    match retired {
        None => left.is_none(),
        Some(retired) => match left {
            None => false,
            Some(left) => left.0 == retired.0,
        },
    }
}

fn moves(shape: Shape, before: &Row, row: &Row) -> bool
    ensures { result ≡ moves_as shape before.now row.now }
{
    let was = stages(shape, &before.cells);
    let now = stages(shape, &row.cells);
    let last = usize::from(shape.stages).saturating_sub(1);
    moves_on(shape, before, row)
        && keeps(stays(before, front(was)), name(front(now)))
        && is_new(before, front(now), was)
        && are_flushed_free(row, now)
        && stops_alone(row, cell_in(now, usize::from(shape.ex)))
        && retires(&row.retired, leaves(row, cell_in(now, last)))
}

/// Whether each cell stands where the row before puts it, does one thing, and retires from the last
/// stage.
pub fn moves_rightly(shape: Shape, before: &Row, row: &Row) -> bool
    ensures { (k : Setting) (earlier : List RowValue) → k.shape ≡ shape → IsPlain k → newest earlier ≡ before.now
        → (result ≡ true → MovesRightly k earlier row.now) × (MovesRightly k earlier row.now → result ≡ true) }
{
    moves(shape, before, row)
}
