ghost use Rattle.std.specs.Prelude.{◌≡◌, ◌-◌, List, None, true};
ghost use Rattle.rv_trace.specs.declared.row.Row.{Row as RowValue};
ghost use Rattle.rv_trace.specs.Trace.{newest};
ghost use Rattle.rv_trace.specs.RowParts.{unless};
ghost use Rattle.rv_lawful.specs.Settings.{Setting};
ghost use Rattle.rv_lawful.specs.LawfulTrace.{WritesUnit, Lawful};
ghost use Rattle.rv_rows.specs.Facts.{IsPlain};
ghost use Rattle.rv_rows.specs.Kinds.{MovesRightly, FetchesRightly, SucceedsRightly, StopsInPlace};
ghost use Rattle.rv_rows.specs.Laws.{AreEmptyUnits};
ghost use Rattle.rv_rows.specs.Known.{IsKnown, IsHeld};
ghost use Rattle.rv_marks.specs.Stops.{own_stop as specified_own_stop, last_gone, empty_after, fetch_stops, due_of, due_stop as specified_due_stop};

use crate::names::{cell_in, is_among, stages};
use crate::succeeding::{are_flushed, below};
use rv_core::Shape;
use rv_rows::{Known, row_facts};
use rv_seq::{Stop, word_at};
use rv_trace::{Cell, Row};

/// The stop that a cell of EX makes, which is due to make this one: none where a hold of its own is
/// true.
fn own_stop(cell: Option<Cell>, held: bool, stop: Option<Stop>) -> Option<Stop>
    ensures { result ≡ specified_own_stop cell held stop }
{
    match cell {
        None => None,
        Some(_) => { if held { None } else { stop } }
    }
}

/// Whether a cell of the last stage is gone after the row.
fn is_last_gone(row: &Row, cell: Option<Cell>) -> bool
    ensures { result ≡ last_gone row.now cell }
{
    match cell {
        None => true,
        Some(cell) => is_among(&row.flushed, cell.serial) || cell.hold.is_none(),
    }
}

/// Whether after the row no stage has a cell.
fn is_empty_after(shape: Shape, row: &Row) -> bool
    ensures { result ≡ empty_after shape row.now }
{
    let cells = stages(shape, &row.cells);
    let last = usize::from(shape.stages).saturating_sub(1);
    are_flushed(row, below(cells, last)) && is_last_gone(row, cell_in(cells, last))
}

/// The address that is fetched next.
fn fetch_after(row: &Row, plain: u32) -> u32
    ensures { result ≡ unless row.now.redirect plain }
{
    match row.redirect {
        None => plain,
        Some(address) => address,
    }
}

/// Whether nothing is left, nothing is outstanding, and the address that is fetched next has no
/// word.
fn is_fetch_due(shape: Shape, known: &Known, image: &[u32], row: &Row) -> bool
    ensures { result ≡ fetch_stops shape known.now image.now row.now }
{
    is_empty_after(shape, row)
        && known.settled
        && word_at(image, fetch_after(row, known.plain)).is_none()
}

/// The stop that the row is to have.
fn due_stop(shape: Shape, known: &Known, held: bool, image: &[u32], row: &Row) -> Option<Stop>
    ensures { result ≡ specified_due_stop shape known.now held image.now row.now }
{
    let cell = cell_in(stages(shape, &row.cells), usize::from(shape.ex));
    match own_stop(cell, held, known.stop) {
        None => {
            if is_fetch_due(shape, known, image, row) {
                Some(Stop::Fetch)
            } else {
                None
            }
        }
        Some(stop) => Some(stop),
    }
}

fn is_same_stop(one: Option<Stop>, other: Option<Stop>) -> bool
    ensures only { result ≡ true → one ≡ other }
    ensures all { one ≡ other → result ≡ true }
{
    one == other
}

fn stops(shape: Shape, known: &Known, held: bool, image: &[u32], before: &Row, row: &Row) -> bool
    ensures only { result ≡ true → (before.now.stop ≡ None) × (row.now.stop ≡ specified_due_stop shape known.now held image.now row.now) }
    ensures all { before.now.stop ≡ None → row.now.stop ≡ specified_due_stop shape known.now held image.now row.now → result ≡ true }
{
    if before.stop.is_some() {
        return false;
    }
    is_same_stop(row.stop, due_stop(shape, known, held, image, row))
}

/// Whether the row has a stop exactly where one is due, and stands behind none. `held` says whether
/// a hold of its own is true of the cell of EX: where the row says that this cell stops the run, no
/// hold is judged of it, so the row alone does not tell.
pub fn stops_rightly(
    shape: Shape,
    known: &Known,
    held: bool,
    image: &[u32],
    before: &Row,
    row: &Row,
) -> bool
    ensures { (k : Setting) (earlier : List RowValue) → k.shape ≡ shape → k.image ≡ image.now → IsPlain k → AreEmptyUnits k.units → Lawful (λ places. k) earlier
        → newest earlier ≡ before.now → IsKnown k earlier row.now known.now → MovesRightly k earlier row.now → FetchesRightly k earlier row.now
        → ((newest earlier).stop ≡ None → SucceedsRightly k earlier row.now) → WritesUnit k earlier row.now → ((newest earlier).stop ≡ None → IsHeld k earlier row.now held)
        → (result ≡ true → StopsInPlace k earlier row.now) × (StopsInPlace k earlier row.now → result ≡ true) }
{
    row_facts();
    stops(shape, known, held, image, before, row)
}
