ghost use Rattle.std.specs.Prelude.{◌≡◌, ◌<◌, ℕ, List, None, true, is_some, get_or};
ghost use Rattle.rv_trace.specs.declared.row.Row.{Row};
ghost use Rattle.rv_lawful.specs.Settings.{Setting};
ghost use Rattle.rv_rows.specs.Facts.{IsPlain, AreGoingOn};
ghost use Rattle.rv_rows.specs.Kinds.{MovesRightly, HoldsRightly, is_of_cell as specified_is_of_cell};
ghost use Rattle.rv_rows.specs.Known.{IsKnown, IsHeld, AreOwed, IsOwing};
ghost use Rattle.rv_holdings.specs.Expected.{NamesRegisters, does_stop, blocks as specified_blocks, is_blocked as specified_is_blocked, behind_hold, own_hold as specified_own_hold, own_at, instructions_above, expected as specified_expected, AsExpected, IsRightAt, AreRight};

use crate::expected::own_hold;
use crate::older::{all_above, is_among};
use rv_asks::Asks;
use rv_core::Shape;
use rv_rows::{Known, Owed, row_facts};
use rv_seq::Stop;
use rv_trace::{Cell, Hold, Row};

fn is_of_cell(stop: Option<Stop>) -> bool
    ensures { result ≡ specified_is_of_cell stop }
{
    match stop {
        None => false,
        Some(stop) => stop != Stop::Fetch,
    }
}

/// Whether the row says that what stands in this stage stops the run.
pub fn stops(shape: Shape, row: &Row, stage: usize) -> bool
    ensures { result ≡ does_stop shape row.now stage }
{
    stage == usize::from(shape.ex) && is_of_cell(row.stop)
}

fn blocks(shape: Shape, row: &Row, stage: usize, cell: Option<Cell>) -> bool
    ensures { result ≡ specified_blocks shape row.now stage cell }
{
    match cell {
        None => false,
        Some(cell) => cell.hold.is_some() || stops(shape, row, stage),
    }
}

/// Whether the next stage has a cell that is held or stops the run.
fn is_blocked(shape: Shape, row: &Row, stage: usize) -> bool
    requires { stage < 4 }
    ensures { result ≡ specified_is_blocked shape row.now stage }
{
    stage + 1 < usize::from(shape.stages) && blocks(shape, row, stage + 1, row.cells[stage + 1])
}

/// Behind, where the next stage has a cell that is held or stops the run.
pub fn behind(shape: Shape, row: &Row, stage: usize) -> Option<Hold>
    ensures { result ≡ behind_hold shape row.now stage }
{
    if stage < 4 && is_blocked(shape, row, stage) {
        Some(Hold::Behind)
    } else {
        None
    }
}

/// The first hold of its own that is true of the instruction of a stage.
fn own_of(
    shape: Shape,
    row: &Row,
    known: &Known,
    owed: &[Owed],
    stage: usize,
    asks: &Asks,
) -> Option<Hold>
    ensures { result ≡ specified_own_hold shape row.now known.now owed.now stage asks.now (instructions_above shape row.now known.now stage) }
{
    let older = all_above(shape, row, known, stage);
    own_hold(shape, row, known, owed, stage, asks, &older)
}

/// The first hold that is true of it.
fn expected(
    shape: Shape,
    row: &Row,
    known: &Known,
    owed: &[Owed],
    stage: usize,
    asks: &Asks,
) -> Option<Hold>
    ensures { result ≡ specified_expected shape row.now known.now owed.now stage asks.now }
{
    let own = own_of(shape, row, known, owed, stage, asks);
    own.or(behind(shape, row, stage))
}

/// Whether they are the same.
pub fn is_same(one: Option<Hold>, other: Option<Hold>) -> bool
    ensures only { result ≡ true → one ≡ other }
    ensures all { one ≡ other → result ≡ true }
{
    one == other
}

/// Whether a cell of this stage shows it.
fn shows(
    shape: Shape,
    row: &Row,
    known: &Known,
    owed: &[Owed],
    stage: usize,
    hold: Option<Hold>,
) -> bool
    requires { stage < 5 }
    ensures only { result ≡ true → AsExpected shape row.now known.now owed.now stage hold }
    ensures all { AsExpected shape row.now known.now owed.now stage hold → result ≡ true }
{
    match known.asks[stage] {
        None => true,
        Some(asks) => is_same(hold, expected(shape, row, known, owed, stage, &asks)),
    }
}

/// Whether the cell of a stage, where it goes on, shows it.
fn is_right(shape: Shape, row: &Row, known: &Known, owed: &[Owed], stage: usize) -> bool
    requires { stage < 5 }
    ensures only { result ≡ true → IsRightAt shape row.now known.now owed.now stage }
    ensures all { IsRightAt shape row.now known.now owed.now stage → result ≡ true }
{
    if stage >= usize::from(shape.stages) {
        return true;
    }
    match row.cells[stage] {
        None => true,
        Some(cell) => {
            if is_among(&row.flushed, cell.serial) {
                return true;
            }
            if stops(shape, row, stage) {
                return true;
            }
            shows(shape, row, known, owed, stage, cell.hold)
        }
    }
}

/// Whether each cell that goes on shows it.
fn are_right(shape: Shape, row: &Row, known: &Known, owed: &[Owed]) -> bool
    ensures only { result ≡ true → AreRight shape row.now known.now owed.now }
    ensures all { AreRight shape row.now known.now owed.now → result ≡ true }
{
    for stage in 0..5 {
        if !is_right(shape, row, known, owed, stage) {
            return false;
        }
    }
    true
}

/// Whether each cell of a row that is neither flushed nor stops the run shows the first hold that
/// is true of it, and none where no hold is true.
pub fn holds_rightly(shape: Shape, known: &Known, owed: &[Owed], row: &Row) -> bool
    ensures only { (k : Setting) (earlier : List Row) → k.shape ≡ shape → NamesRegisters k → IsPlain k → AreGoingOn k earlier → MovesRightly k earlier row.now → IsKnown k earlier row.now known.now → AreOwed k earlier owed.now → IsOwing k earlier → result ≡ true → HoldsRightly k earlier row.now }
    ensures all { (k : Setting) (earlier : List Row) → k.shape ≡ shape → NamesRegisters k → IsPlain k → AreGoingOn k earlier → MovesRightly k earlier row.now → IsKnown k earlier row.now known.now → AreOwed k earlier owed.now → IsOwing k earlier → HoldsRightly k earlier row.now → result ≡ true }
{
    row_facts();
    are_right(shape, row, known, owed)
}

fn asks_at(known: &Known, stage: usize) -> Option<Asks>
    ensures { result ≡ get_or known.now.asks stage None }
{
    match known.asks.get(stage) {
        None => None,
        Some(asks) => *asks,
    }
}

/// Whether a hold of its own is true of the instruction of a stage.
fn has_own(shape: Shape, row: &Row, known: &Known, owed: &[Owed], stage: usize) -> bool
    ensures { result ≡ is_some (own_at shape row.now known.now owed.now stage (get_or known.now.asks stage None)) }
{
    match asks_at(known, stage) {
        None => false,
        Some(asks) => own_of(shape, row, known, owed, stage, &asks).is_some(),
    }
}

/// Whether a hold of its own is true of the cell of EX, whatever this cell shows.
pub fn is_held(shape: Shape, known: &Known, owed: &[Owed], row: &Row) -> bool
    ensures { (k : Setting) (earlier : List Row) → k.shape ≡ shape → NamesRegisters k → IsPlain k → AreGoingOn k earlier → MovesRightly k earlier row.now → IsKnown k earlier row.now known.now → AreOwed k earlier owed.now → IsOwing k earlier → IsHeld k earlier row.now result }
{
    row_facts();
    has_own(shape, row, known, owed, usize::from(shape.ex))
}
