ghost use Rattle.std.specs.Prelude.{◌≡◌, List, is_some, true};
ghost use Rattle.rv_trace.specs.declared.row.Row.{Row as RowValue};
ghost use Rattle.rv_trace.specs.Trace.{newest};
ghost use Rattle.rv_lawful.specs.Settings.{Setting};
ghost use Rattle.rv_lawful.specs.LawfulTrace.{Lawful};
ghost use Rattle.rv_rows.specs.Facts.{IsPlain};
ghost use Rattle.rv_rows.specs.Kinds.{MovesRightly, FetchesRightly, SucceedsRightly};
ghost use Rattle.rv_marks.specs.Marks.{no_marks as specified_no_marks, is_still as specified_is_still};

use rv_rows::row_facts;
use rv_trace::Row;

/// Whether no serial is given.
fn no_marks(marks: &[Option<u32>; 5]) -> bool
    ensures { result ≡ specified_no_marks marks.now }
{
    for one in marks {
        if one.is_some() {
            return false;
        }
    }
    true
}

/// Whether the row flushes nothing and names no address.
fn is_still(row: &Row) -> bool
    ensures { result ≡ specified_is_still row.now }
{
    no_marks(&row.flushed) && row.redirect.is_none()
}

/// Whether a row behind a stop flushes and names what the settled successors ask for. The cell that
/// stopped is due to stop and settles nothing, and no other stands in EX or above: so it flushes
/// nothing and names no address.
pub fn succeeds_behind(row: &Row) -> bool
    ensures { (k : Setting) (earlier : List RowValue) → IsPlain k → Lawful (λ places. k) earlier → is_some (newest earlier).stop ≡ true → MovesRightly k earlier row.now → FetchesRightly k earlier row.now
        → (result ≡ true → SucceedsRightly k earlier row.now) × (SucceedsRightly k earlier row.now → result ≡ true) }
{
    row_facts();
    is_still(row)
}
