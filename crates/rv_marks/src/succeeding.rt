ghost use Rattle.std.specs.Prelude.{◌≡◌, ◌-◌, List, None, Some, take, slice_get, true};
ghost use Rattle.rv_trace.specs.declared.row.Row.{Row as RowValue};
ghost use Rattle.rv_lawful.specs.Settings.{Setting};
ghost use Rattle.rv_rows.specs.Facts.{IsPlain};
ghost use Rattle.rv_rows.specs.Kinds.{SucceedsRightly};
ghost use Rattle.rv_rows.specs.Known.{IsKnown};
ghost use Rattle.rv_marks.specs.Marks.{cells_in};
ghost use Rattle.rv_marks.specs.Turns.{late_in, in_execute, in_last, turn_if as specified_turn_if, nearest_from, all_flushed, settled_right, turn_right, is_turned, struck, flushed_by, is_open, names_it, named_by, succeeds_as};

use crate::fetching::is_same_serial;
use crate::moving::{is_cell_stop, lacks};
use crate::names::{cell_in, is_among, leaves, stages};
use rv_asks::Asks;
use rv_core::Shape;
use rv_rows::Known;
use rv_trace::{Cell, Row};

/// A cell that settles its successor: its stage, and the address of the successor.
#[derive(Clone, Copy, Debug, PartialEq, Eq)]
pub struct Turn {
    pub stage: usize,
    pub next: u32,
}

/// Whether the instruction of a stage's cell writes the pc late.
fn is_late(asks: &[Option<Asks>; 5], stage: usize) -> bool
    ensures { result ≡ late_in (slice_get asks.now stage) }
{
    match asks.get(stage) {
        None => false,
        Some(None) => false,
        Some(Some(asks)) => asks.late,
    }
}

/// Whether the cell of EX settles its successor: it leaves, and neither stops the run nor is due
/// to.
fn settles_in_execute(shape: Shape, known: &Known, row: &Row) -> bool
    ensures { result ≡ in_execute shape known.now row.now }
{
    let stage = usize::from(shape.ex);
    let cell = cell_in(stages(shape, &row.cells), stage);
    leaves(row, cell).is_some()
        && !is_late(&known.asks, stage)
        && !is_cell_stop(row.stop)
        && known.stop.is_none()
}

/// Whether the cell of the last stage does: it leaves, and writes the pc late.
fn settles_in_last(shape: Shape, known: &Known, row: &Row) -> bool
    ensures { result ≡ in_last shape known.now row.now }
{
    let stage = usize::from(shape.stages).saturating_sub(1);
    let cell = cell_in(stages(shape, &row.cells), stage);
    leaves(row, cell).is_some() && is_late(&known.asks, stage)
}

fn turn_if(settles: bool, stage: usize, next: u32) -> Option<Turn>
    ensures { result ≡ specified_turn_if settles stage next }
{
    if settles {
        Some(Turn { stage, next })
    } else {
        None
    }
}

/// The cells below a stage.
pub fn below(cells: &[Option<Cell>], stage: usize) -> &[Option<Cell>]
    ensures { result.now ≡ take stage cells.now }
{
    if stage < cells.len() {
        &cells[..stage]
    } else {
        cells
    }
}

/// The oldest of these cells.
fn nearest(cells: &[Option<Cell>]) -> Option<Cell>
    ensures { result ≡ nearest_from None cells.now }
{
    let mut found = None;
    for cell in cells {
        if let Some(cell) = cell {
            found = Some(*cell);
        }
    }
    found
}

/// Whether all these cells are flushed.
pub fn are_flushed(row: &Row, cells: &[Option<Cell>]) -> bool
    ensures { result ≡ all_flushed row.now cells.now }
{
    for cell in cells {
        if let Some(cell) = cell {
            if !is_among(&row.flushed, cell.serial) {
                return false;
            }
        }
    }
    true
}

/// Whether the row flushes and names what a settled successor asks for, with these younger cells.
fn follows(turn: Turn, plain: u32, row: &Row, younger: &[Option<Cell>]) -> bool
    ensures { result ≡ settled_right turn plain row.now younger.now (nearest_from None younger.now) }
{
    match nearest(younger) {
        None => {
            let named = if turn.next == plain {
                None
            } else {
                Some(turn.next)
            };
            is_same_serial(row.redirect, named)
        }
        Some(cell) => {
            cell.at == turn.next
                || are_flushed(row, younger) && is_same_serial(row.redirect, Some(turn.next))
        }
    }
}

fn follows_turn(turn: Option<Turn>, plain: u32, row: &Row, cells: &[Option<Cell>]) -> bool
    ensures { result ≡ turn_right turn plain row.now cells.now }
{
    match turn {
        None => true,
        Some(turn) => follows(turn, plain, row, below(cells, turn.stage)),
    }
}

/// Whether the next younger cell has another address than the successor.
fn is_mismatch(younger: Option<Cell>, next: u32) -> bool
    ensures { result ≡ is_turned younger next }
{
    match younger {
        None => false,
        Some(cell) => cell.at != next,
    }
}

/// Whether the cell of this serial is flushed by a mismatch.
fn strikes(turn: Option<Turn>, cells: &[Option<Cell>], serial: u32) -> bool
    ensures { result ≡ struck turn cells.now serial }
{
    match turn {
        None => false,
        Some(turn) => {
            let younger = below(cells, turn.stage);
            is_mismatch(nearest(younger), turn.next) && !lacks(serial, younger)
        }
    }
}

/// Whether each flushed serial is that of a cell which one of both flushes.
fn are_struck(
    execute: Option<Turn>,
    last: Option<Turn>,
    cells: &[Option<Cell>],
    flushed: &[Option<u32>],
) -> bool
    ensures { result ≡ flushed_by execute last cells.now flushed.now }
{
    for serial in flushed {
        if let Some(serial) = serial {
            if !strikes(execute, cells, *serial) && !strikes(last, cells, *serial) {
                return false;
            }
        }
    }
    true
}

/// Whether the successor is to be named: the next younger cell has another address, or there is
/// none.
fn is_named(younger: Option<Cell>, next: u32) -> bool
    ensures { result ≡ is_open younger next }
{
    match younger {
        None => true,
        Some(cell) => cell.at != next,
    }
}

/// Whether the cell that settles its successor names this address.
fn names(turn: Option<Turn>, cells: &[Option<Cell>], address: u32) -> bool
    ensures { result ≡ names_it turn cells.now address }
{
    match turn {
        None => false,
        Some(turn) => {
            turn.next == address && is_named(nearest(below(cells, turn.stage)), turn.next)
        }
    }
}

/// Whether one of both names the address that the row names.
fn is_address_named(
    execute: Option<Turn>,
    last: Option<Turn>,
    cells: &[Option<Cell>],
    redirect: Option<u32>,
) -> bool
    ensures { result ≡ named_by execute last cells.now redirect }
{
    match redirect {
        None => true,
        Some(address) => names(execute, cells, address) || names(last, cells, address),
    }
}

fn succeeds(shape: Shape, known: &Known, row: &Row) -> bool
    ensures { result ≡ succeeds_as shape known.now row.now }
{
    let cells = stages(shape, &row.cells);
    let last_stage = usize::from(shape.stages).saturating_sub(1);
    let execute = turn_if(
        settles_in_execute(shape, known, row),
        usize::from(shape.ex),
        known.behind_execute,
    );
    let last = turn_if(
        settles_in_last(shape, known, row),
        last_stage,
        known.behind_last,
    );
    follows_turn(execute, known.plain, row, cells)
        && follows_turn(last, known.plain, row, cells)
        && are_struck(execute, last, cells, &row.flushed)
        && is_address_named(execute, last, cells, row.redirect)
}

/// Whether the row flushes and names what the settled successors ask for, and nothing else.
pub fn succeeds_rightly(shape: Shape, known: &Known, row: &Row) -> bool
    ensures { (k : Setting) (earlier : List RowValue) → k.shape ≡ shape → IsPlain k → IsKnown k earlier row.now known.now
        → (result ≡ true → SucceedsRightly k earlier row.now) × (SucceedsRightly k earlier row.now → result ≡ true) }
{
    succeeds(shape, known, row)
}
