ghost use Rattle.std.specs.Prelude.{◌≡◌, List, Some, true};
ghost use Rattle.rv_trace.specs.declared.row.Row.{Row as RowValue};
ghost use Rattle.rv_trace.specs.Trace.{newest};
ghost use Rattle.rv_trace.specs.RowParts.{fetched as specified_fetched};
ghost use Rattle.rv_lawful.specs.Settings.{Setting};
ghost use Rattle.rv_lawful.specs.Outstanding.{serial_written};
ghost use Rattle.rv_lawful.specs.LawfulTrace.{WritesUnit};
ghost use Rattle.rv_rows.specs.Kinds.{FetchesRightly};
ghost use Rattle.rv_rows.specs.Known.{IsReady};
ghost use Rattle.rv_marks.specs.Marks.{fetches_as, same_serial};

use crate::names::{front, is_same, name, stages, stays};
use rv_core::Shape;
use rv_rows::Known;
use rv_seq::word_at;
use rv_trace::Row;

/// What a fetch of this serial and address brings, where there is a word.
fn fetched(serial: u32, at: u32, word: Option<u32>) -> Option<(u32, u32, u32)>
    ensures { result ≡ specified_fetched serial at word }
{
    match word {
        None => None,
        Some(word) => Some((serial, at, word)),
    }
}

fn fetches(shape: Shape, known: &Known, image: &[u32], before: &Row, row: &Row) -> bool
    ensures { result ≡ fetches_as shape known.now.next known.now.fetch image.now before.now row.now }
{
    if stays(before, front(stages(shape, &before.cells))).is_some() {
        return true;
    }
    let new = fetched(known.next, known.fetch, word_at(image, known.fetch));
    is_same(name(front(stages(shape, &row.cells))), new)
}

/// Whether stage 0 has what is fetched, where it keeps no cell.
pub fn fetches_rightly(shape: Shape, known: &Known, image: &[u32], before: &Row, row: &Row) -> bool
    ensures { (k : Setting) (earlier : List RowValue) → k.shape ≡ shape → k.image ≡ image.now → newest earlier ≡ before.now → IsReady k earlier known.now
        → (result ≡ true → FetchesRightly k earlier row.now) × (FetchesRightly k earlier row.now → result ≡ true) }
{
    fetches(shape, known, image, before, row)
}

pub fn is_same_serial(one: Option<u32>, other: Option<u32>) -> bool
    ensures { result ≡ same_serial one other }
{
    match one {
        None => other.is_none(),
        Some(one) => match other {
            None => false,
            Some(other) => one == other,
        },
    }
}

/// The serial that the row says is written.
fn written_in(row: &Row) -> Option<u32>
    ensures { result ≡ serial_written row.now.written }
{
    match &row.written {
        None => None,
        Some(written) => Some(written.0),
    }
}

/// Whether the unit that is due writes in the row, and no other.
pub fn unit_rightly(known: &Known, row: &Row) -> bool
    ensures { (k : Setting) (earlier : List RowValue) → IsReady k earlier known.now
        → (result ≡ true → WritesUnit k earlier row.now) × (WritesUnit k earlier row.now → result ≡ true) }
{
    is_same_serial(written_in(row), known.granted)
}
