ghost use Rattle.std.specs.Prelude.{◌≡◌, take, slice_get};
ghost use Rattle.rv_trace.specs.Trace.{has_serial};
ghost use Rattle.rv_trace.specs.RowParts.{name_of, stays as specified_stays, leaves as specified_leaves, front as specified_front};
ghost use Rattle.rv_marks.specs.Marks.{same_name, cell_of};

use rv_core::Shape;
use rv_trace::{Cell, Row};

/// What a cell keeps from row to row: its serial, its address and its word.
pub fn name(cell: Option<Cell>) -> Option<(u32, u32, u32)>
    ensures { result ≡ name_of cell }
{
    match cell {
        None => None,
        Some(cell) => Some((cell.serial, cell.at, cell.word)),
    }
}

pub fn is_same(one: Option<(u32, u32, u32)>, other: Option<(u32, u32, u32)>) -> bool
    ensures { result ≡ same_name one other }
{
    match (one, other) {
        (None, None) => true,
        (Some(one), Some(other)) => one.0 == other.0 && one.1 == other.1 && one.2 == other.2,
        (None, Some(_)) => false,
        (Some(_), None) => false,
    }
}

pub fn is_among(flushed: &[Option<u32>; 5], serial: u32) -> bool
    ensures { result ≡ has_serial flushed.now serial }
{
    for one in flushed {
        if *one == Some(serial) {
            return true;
        }
    }
    false
}

/// The cell that is held in its stage.
pub fn stays(row: &Row, cell: Option<Cell>) -> Option<(u32, u32, u32)>
    ensures { result ≡ specified_stays row.now cell }
{
    match cell {
        None => None,
        Some(cell) => {
            if cell.hold.is_some() && !is_among(&row.flushed, cell.serial) {
                Some((cell.serial, cell.at, cell.word))
            } else {
                None
            }
        }
    }
}

/// The cell that moves to the next stage, or retires from the last.
pub fn leaves(row: &Row, cell: Option<Cell>) -> Option<(u32, u32, u32)>
    ensures { result ≡ specified_leaves row.now cell }
{
    match cell {
        None => None,
        Some(cell) => {
            if cell.hold.is_some() || is_among(&row.flushed, cell.serial) {
                None
            } else {
                Some((cell.serial, cell.at, cell.word))
            }
        }
    }
}

/// The cells of the core's stages, stage 0 first.
pub fn stages(shape: Shape, cells: &[Option<Cell>; 5]) -> &[Option<Cell>]
    ensures { result.now ≡ take shape.stages cells.now }
{
    let count = usize::from(shape.stages);
    if count < 5 { &cells[..count] } else { cells }
}

/// The cell of a stage.
pub fn cell_in(cells: &[Option<Cell>], stage: usize) -> Option<Cell>
    ensures { result ≡ cell_of (slice_get cells.now stage) }
{
    match cells.get(stage) {
        None => None,
        Some(cell) => *cell,
    }
}

/// What stands in stage 0.
pub fn front(cells: &[Option<Cell>]) -> Option<Cell>
    ensures { result ≡ specified_front cells.now }
{
    match cells {
        [] => None,
        [first, ..] => *first,
    }
}
