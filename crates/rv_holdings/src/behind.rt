ghost use Rattle.std.specs.Prelude.{◌≡◌, ◌<◌, ◌==◌, ◌&&◌, List, None, true, not, nat_lt, is_some, get_or};
ghost use Rattle.rv_trace.specs.Trace.{has_serial};
ghost use Rattle.rv_trace.specs.declared.row.Row.{Row as RowValue};
ghost use Rattle.rv_trace.specs.Trace.{newest};
ghost use Rattle.rv_lawful.specs.Settings.{Setting};
ghost use Rattle.rv_lawful.specs.LawfulTrace.{Lawful, reads_of};
ghost use Rattle.rv_rows.specs.Facts.{IsPlain};
ghost use Rattle.rv_rows.specs.Kinds.{MovesRightly, HoldsRightly};
ghost use Rattle.rv_rows.specs.Known.{IsOwing};
ghost use Rattle.rv_holdings.specs.Expected.{NamesRegisters, IsStopper, AsksAtRead, is_withheld as specified_is_withheld, operand_behind, own_behind as specified_own_behind, expected_behind, IsRightBehind, AreRightBehind};

use crate::expected::least_board;
use crate::judging::{behind, is_same, stops};
use crate::older::is_among;
use rv_asks::Asks;
use rv_core::Shape;
use rv_rows::{Owed, row_facts};
use rv_trace::{Cell, Hold, Row};

fn cell_at(row: &Row, stage: usize) -> Option<Cell>
    ensures { result ≡ get_or row.now.cells stage None }
{
    match row.cells.get(stage) {
        None => None,
        Some(cell) => *cell,
    }
}

/// Whether the x register of the one that stopped is not there yet for a younger one.
fn is_withheld(shape: Shape, row: &Row, other: &Owed) -> bool
    ensures { result ≡ specified_is_withheld shape row.now other.now }
{
    if !shape.forward {
        return true;
    }
    cell_at(row, usize::from(shape.ex)).is_some() && other.asks.x_time >= shape.ex
}

fn does_read(asks: &Asks, r: u8) -> bool
    ensures { result ≡ reads_of asks.now r }
{
    r != 0 && (r == asks.first || r == asks.second)
}

/// The hold of an instruction that waits for that register.
fn operand(shape: Shape, row: &Row, asks: &Asks, other: &Owed) -> Option<Hold>
    ensures { result ≡ operand_behind shape row.now asks.now other.now }
{
    let destination = other.asks.destination;
    if does_read(asks, destination) && is_withheld(shape, row, other) {
        Some(Hold::Operand(destination, other.serial))
    } else {
        None
    }
}

/// Whether an instruction of a stage may wait for the one that stopped.
fn may_wait(shape: Shape, row: &Row, stage: usize, other: &Owed) -> bool
    ensures { result ≡ ((stage == shape.rd) && (nat_lt stage shape.ex && not (has_serial row.now.flushed other.now.serial))) }
{
    stage == usize::from(shape.rd)
        && stage < usize::from(shape.ex)
        && !is_among(&row.flushed, other.serial)
}

/// The first hold of its own that is true of the instruction of a stage.
fn own_behind(
    shape: Shape,
    row: &Row,
    stage: usize,
    asks: &Asks,
    stopped: Option<Owed>,
) -> Option<Hold>
    ensures { result ≡ specified_own_behind shape row.now stage asks.now stopped }
{
    let Some(other) = stopped else {
        return None;
    };
    if !may_wait(shape, row, stage, &other) {
        return None;
    }
    let board = least_board(shape, row, &[], asks, &[Some(other)]);
    operand(shape, row, asks, &other).or(board)
}

/// The first hold that is true of it.
fn expected(
    shape: Shape,
    row: &Row,
    stage: usize,
    asks: &Asks,
    stopped: Option<Owed>,
) -> Option<Hold>
    ensures { result ≡ expected_behind shape row.now stage asks.now stopped }
{
    own_behind(shape, row, stage, asks, stopped).or(behind(shape, row, stage))
}

/// Whether the cell of a stage, where it goes on, shows it.
fn is_right(shape: Shape, row: &Row, stage: usize, asks: &Asks, stopped: Option<Owed>) -> bool
    requires { stage < 5 }
    ensures only { result ≡ true → IsRightBehind shape row.now asks.now stopped stage }
    ensures all { IsRightBehind shape row.now asks.now stopped stage → result ≡ true }
{
    if stage >= usize::from(shape.stages) {
        return true;
    }
    match cell_at(row, stage) {
        None => true,
        Some(cell) => {
            if is_among(&row.flushed, cell.serial) {
                return true;
            }
            if stops(shape, row, stage) {
                return true;
            }
            is_same(cell.hold, expected(shape, row, stage, asks, stopped))
        }
    }
}

/// Whether each cell that goes on shows it.
fn are_right(shape: Shape, row: &Row, asks: &Asks, stopped: Option<Owed>) -> bool
    ensures only { result ≡ true → AreRightBehind shape row.now asks.now stopped }
    ensures all { AreRightBehind shape row.now asks.now stopped → result ≡ true }
{
    for stage in 0..5 {
        if !is_right(shape, row, stage, asks, stopped) {
            return false;
        }
    }
    true
}

/// Whether each cell of a row behind a stop that is neither flushed nor stops the run shows the
/// first hold that is true of it, and none where no hold is true. `stopped` is the instruction that
/// stopped the run, where no fetch did: the only one that a younger one may still wait for. `asks`
/// is what the instruction at RD asks for.
pub fn holds_behind(shape: Shape, asks: &Asks, stopped: Option<Owed>, row: &Row) -> bool
    ensures only { (k : Setting) (earlier : List RowValue) → k.shape ≡ shape → NamesRegisters k → IsPlain k → Lawful (λ places. k) earlier
        → is_some (newest earlier).stop ≡ true → MovesRightly k earlier row.now → AsksAtRead k row.now asks.now → IsStopper k earlier stopped → IsOwing k earlier → result ≡ true → HoldsRightly k earlier row.now }
    ensures all { (k : Setting) (earlier : List RowValue) → k.shape ≡ shape → NamesRegisters k → IsPlain k → Lawful (λ places. k) earlier
        → is_some (newest earlier).stop ≡ true → MovesRightly k earlier row.now → AsksAtRead k row.now asks.now → IsStopper k earlier stopped → IsOwing k earlier → HoldsRightly k earlier row.now → result ≡ true }
{
    row_facts();
    are_right(shape, row, asks, stopped)
}
