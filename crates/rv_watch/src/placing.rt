ghost use Rattle.std.specs.Prelude.{◌≡◌, ◌+◌, ◌<◌, ◌≤◌, ◌^◌, ℕ, List, ◌∷◌, Some, length, take, slice_get};
ghost use Rattle.rv_trace.specs.declared.row.Row.{Row as RowValue};
ghost use Rattle.rv_trace.specs.Trace.{place, retirements};
ghost use Rattle.rv_lawful.specs.Settings.{Setting, Stands};
ghost use Rattle.rv_lawful.specs.LawfulTrace.{IsInForm};
ghost use Rattle.rv_rows.specs.Facts.{IsPlain, AreGoingOn, MovesAbove, cells_in};
ghost use Rattle.rv_watch.specs.Seen.{AreSeen};
ghost use Rattle.rv_watch.specs.Places.{was_flushed as specified_was_flushed, lowers as specified_lowers, lowering, first_place as specified_first_place};

use crate::seen::Seen;
use rv_core::Shape;
use rv_rows::row_facts;
use rv_trace::{Cell, Row};

// The cells of the core's stages, stage 0 first.
fn stages(shape: Shape, cells: &[Option<Cell>; 5]) -> &[Option<Cell>]
    ensures stages { result.now ≡ take shape.stages cells.now }
    ensures few { length result.now ≤ 5 }
{
    let count = usize::from(shape.stages);
    if count < 5 { &cells[..count] } else { cells }
}

// How many cells there are.
fn count_cells(cells: &[Option<Cell>]) -> u32
    requires few { length cells.now ≤ 5 }
    ensures count { result ≡ cells_in cells.now }
    ensures few { result ≤ 5 }
{
    let mut count = 0;
    for cell in cells {
        if cell.is_some() {
            count += 1;
        }
    }
    count
}

// Whether the serial was flushed before.
fn was_flushed(seen: &[Seen], serial: u32) -> bool
    ensures { result ≡ specified_was_flushed seen.now serial }
{
    match seen.get(serial as usize) {
        None => false,
        Some(entry) => entry.flushed,
    }
}

// Whether a mark lowers the place of a serial.
fn lowers(seen: &[Seen], mark: Option<u32>, serial: u32) -> bool
    ensures { result ≡ specified_lowers (specified_was_flushed seen.now) mark serial }
{
    match mark {
        None => false,
        Some(lower) => lower < serial && !was_flushed(seen, lower),
    }
}

// How many of the marks lower the place of a serial.
fn count_marks(seen: &[Seen], marks: &[Option<u32>; 5], serial: u32) -> u32
    ensures { result ≡ lowering (specified_was_flushed seen.now) marks.now serial }
{
    let mut count = 0;
    for mark in marks {
        if lowers(seen, *mark, serial) {
            count += 1;
        }
    }
    count
}

// The place of the first of these cells, with the others above it; 0 where there is none.
fn first_place(retired: u32, seen: &[Seen], marks: &[Option<u32>; 5], cells: &[Option<Cell>]) -> u32
    requires retired { retired + 5 < 2 ^ 32 }
    requires few { length cells.now ≤ 5 }
    ensures { result ≡ specified_first_place retired seen.now marks.now cells.now }
{
    match cells {
        [] => 0,
        [first, above @ ..] => match first {
            None => 0,
            Some(cell) => {
                let all = retired + count_cells(above);
                all.saturating_sub(count_marks(seen, marks, cell.serial))
            }
        },
    }
}

/// Where the cells of a row stand in the run, as the row's own marks say, stage 0 first; 0 where no
/// cell stands. The place of a cell is the count of lower serials that are not flushed. A row may
/// mark serials falsely: each mark lowers the places of what stands above its serial.
pub fn places(shape: Shape, retired: u32, seen: &[Seen], row: &Row) -> [u32; 5]
    requires retired { retired + 5 < 2 ^ 32 }
    ensures { (k : Setting) (earlier : List RowValue) → k.shape ≡ shape → IsPlain k → AreGoingOn k earlier → MovesAbove k earlier row.now → IsInForm k row.now → retired ≡ retirements earlier → AreSeen k earlier seen.now
        → (stage : ℕ) (c : Cell) → 0 < stage → Stands k row.now stage c → slice_get result stage ≡ Some (place (row.now ∷ earlier) c.serial) }
{
    row_facts();
    let cells = stages(shape, &row.cells);
    let mut places = [0; 5];
    for stage in 0..cells.len() {
        places[stage] = first_place(retired, seen, &row.flushed, &cells[stage..]);
    }
    places
}
