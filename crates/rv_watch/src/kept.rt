ghost use Rattle.std.specs.Prelude.{ℕ, List, Option, ◌∷◌, slice_get, ◌≡◌, ◌+◌, ◌<◌, ◌≤◌, ◌^◌, length, if◌then◌else◌, is_some, Some};
ghost use Rattle.rv_trace.specs.declared.row.Row.{Row as TraceRow};
ghost use Rattle.rv_trace.specs.Trace.{newest};
ghost use Rattle.rv_trace.specs.RowParts.{unless, serial_after};
ghost use Rattle.rv_lawful.specs.Settings.{Setting};
ghost use Rattle.rv_lawful.specs.LawfulTrace.{LawfulRow, plain_fetch, fetch_address};
ghost use Rattle.rv_rows.specs.Facts.{IsPlain, AreGoingOn};
ghost use Rattle.rv_watch.specs.Kept.{counted, was_here, stood_then as specified_stood_then, tailed_then as specified_tailed_then, IsKept};

use rv_core::Shape;
use rv_rows::row_facts;
use rv_trace::{Cell, Hold, Row};

/// What is kept of the rows so far, but for which serials were flushed.
#[derive(Clone, Copy, Debug, PartialEq, Eq)]
pub struct Kept {
    /// The address and the serial of what is fetched next.
    pub fetch: u32,
    pub next: u32,
    /// How many instructions are retired.
    pub retired: u32,
    /// For how many rows in succession the cell of MEM has stood there, the newest row counted.
    pub stood: u32,
    /// For how many rows the cell of the last stage was held by Tail, the newest row counted.
    pub tailed: u32,
}

// The cell of a stage.
fn cell_at(row: &Row, stage: usize) -> Option<Cell>
    requires { stage < 5 }
    ensures { slice_get row.now.cells stage ≡ Some result }
{
    row.cells[stage]
}

// This address, where there is one, and else the other.
fn address(named: Option<u32>, plain: u32) -> u32
    ensures { result ≡ unless named plain }
{
    match named {
        None => plain,
        Some(at) => at,
    }
}

// The serial behind that of a cell, where there is one.
fn serial_behind(next: u32, first: Option<Cell>) -> u32
    requires { (c : Cell) → first ≡ Some c → c.serial + 1 < 2 ^ 32 }
    ensures { result ≡ serial_after next first }
{
    match first {
        None => next,
        Some(cell) => cell.serial + 1,
    }
}

// One more, if it is so.
fn count(number: u32, more: bool) -> u32
    requires { number + 1 < 2 ^ 32 }
    ensures { result ≡ counted number more }
{
    if more { number + 1 } else { number }
}

// Did the cell of this serial stand here before?
fn was_there(before: Option<Cell>, serial: u32) -> bool
    ensures { result ≡ was_here before serial }
{
    match before {
        None => false,
        Some(cell) => cell.serial == serial,
    }
}

// For how many rows the cell has stood here.
fn stood_then(number: u32, before: Option<Cell>, now: Option<Cell>) -> u32
    requires { number + 1 < 2 ^ 32 }
    ensures { result ≡ specified_stood_then number before now }
{
    match now {
        None => 0,
        Some(cell) => {
            if was_there(before, cell.serial) {
                number + 1
            } else {
                1
            }
        }
    }
}

// For how many rows the cell was held by Tail.
fn tailed_then(number: u32, before: Option<Cell>, now: Option<Cell>) -> u32
    requires { number + 1 < 2 ^ 32 }
    ensures { result ≡ specified_tailed_then number before now }
{
    match now {
        None => 0,
        Some(cell) => {
            let is_tail = matches!(cell.hold, Some(Hold::Tail(_)));
            let so_far = if was_there(before, cell.serial) {
                number
            } else {
                0
            };
            count(so_far, is_tail)
        }
    }
}

/// What is kept with one row more, behind which this address is fetched where the row names none.
/// Each number kept is below 2^31, and so is each serial.
pub fn keep(shape: Shape, kept: Kept, before: &Row, row: &Row, plain: u32) -> Kept
    requires stages { 0 < shape.stages }
    requires most { shape.stages ≤ 5 }
    requires memory { shape.mem < shape.stages }
    requires serial { (c : Cell) → slice_get row.now.cells 0 ≡ Some (Some c) → c.serial + 1 < 2 ^ 32 }
    requires retired { kept.retired + 1 < 2 ^ 32 }
    requires stood { kept.stood + 1 < 2 ^ 32 }
    requires tailed { kept.tailed + 1 < 2 ^ 32 }
    ensures stood { result.stood ≤ kept.stood + 1 }
    ensures tailed { result.tailed ≤ kept.tailed + 1 }
    ensures kept { (k : Setting) (earlier : List TraceRow) → k.shape ≡ shape → IsPlain k → AreGoingOn k earlier → newest earlier ≡ before.now → LawfulRow k earlier row.now → plain ≡ plain_fetch k earlier (fetch_address k earlier) row.now → IsKept k earlier kept → IsKept k (row.now ∷ earlier) result }
{
    row_facts();
    let memory = usize::from(shape.mem);
    let last = usize::from(shape.stages) - 1;
    let first = cell_at(row, 0);
    let was_memory = cell_at(before, memory);
    let in_memory = cell_at(row, memory);
    let was_last = cell_at(before, last);
    let at_last = cell_at(row, last);
    Kept {
        fetch: address(row.redirect, plain),
        next: serial_behind(kept.next, first),
        retired: count(kept.retired, row.retired.is_some()),
        stood: stood_then(kept.stood, was_memory, in_memory),
        tailed: tailed_then(kept.tailed, was_last, at_last),
    }
}
