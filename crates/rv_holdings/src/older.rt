ghost use Rattle.std.specs.Prelude.{◌≡◌, ◌<◌};
ghost use Rattle.rv_trace.specs.Trace.{has_serial};
ghost use Rattle.rv_holdings.specs.Expected.{owed_by, instruction_in, instruction_at, instructions_above};

use rv_asks::Asks;
use rv_core::Shape;
use rv_rows::{Known, Owed};
use rv_trace::{Cell, Row};

/// Whether a serial is flushed in the row.
pub fn is_among(flushed: &[Option<u32>; 5], serial: u32) -> bool
    ensures { result ≡ has_serial flushed.now serial }
{
    for one in flushed {
        if *one == Some(serial) {
            return true;
        }
    }
    false
}

fn owed_with(serial: u32, asks: Option<Asks>) -> Option<Owed>
    ensures { result ≡ owed_by serial asks }
{
    match asks {
        None => None,
        Some(asks) => Some(Owed { serial, asks }),
    }
}

/// The instruction of a cell that the row does not flush.
fn unflushed(row: &Row, cell: Option<Cell>, asks: Option<Asks>) -> Option<Owed>
    ensures { result ≡ instruction_in row.now.flushed cell asks }
{
    match cell {
        None => None,
        Some(cell) => {
            if is_among(&row.flushed, cell.serial) {
                None
            } else {
                owed_with(cell.serial, asks)
            }
        }
    }
}

/// The one that stands at a stage above this one.
fn above_at(shape: Shape, row: &Row, known: &Known, stage: usize, at: usize) -> Option<Owed>
    requires { at < 5 }
    ensures { result ≡ instruction_at shape row.now known.now stage at }
{
    if stage < at && at < usize::from(shape.stages) {
        unflushed(row, row.cells[at], known.asks[at])
    } else {
        None
    }
}

/// The instructions that stand above a stage and are not flushed in the row, each at its stage.
pub fn all_above(shape: Shape, row: &Row, known: &Known, stage: usize) -> [Option<Owed>; 5]
    ensures { result ≡ instructions_above shape row.now known.now stage }
{
    [
        above_at(shape, row, known, stage, 0),
        above_at(shape, row, known, stage, 1),
        above_at(shape, row, known, stage, 2),
        above_at(shape, row, known, stage, 3),
        above_at(shape, row, known, stage, 4),
    ]
}
