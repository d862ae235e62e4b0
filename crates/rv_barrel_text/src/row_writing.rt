ghost use Rattle.std.specs.Prelude.{◌≡◌, ℕ, ◌≤◌, ◌++◌, List, length, OnOk, OnErr};
ghost use Rattle.ix_io.specs.Faults.{Rose};
ghost use Rattle.rv_text.specs.Telling.{Carries, Breaks};
ghost use Rattle.rv_barrel_text.specs.BarrelRowText.{barrel_line, lines_text, of_each, barrel_row_text};

use crate::row_text::{put_line, put_lines};
use ix_io::{Out, Sink, WriteErr};
use rv_core::Shape;
use rv_harts::{BarrelRow, HartPart};
use rv_text::make_room;

// Writes the line of a row, but for what stays in the buffer.
fn write_line<S: Sink>(
    number: u32,
    shape: Shape,
    row: &BarrelRow,
    out: &mut Out,
    sink: &mut S,
) -> Result<(), WriteErr>
    ensures carries { OnOk result ((rest : List ℕ) → Carries (S.written sink.old) out.old (barrel_line shape.stages number row.now ++ rest) (S.written sink.new) out.new rest) }
    ensures breaks { OnErr result ((rest : List ℕ) → Breaks (S.written sink.old) out.old rest (S.written sink.new)) }
    ensures fault { OnErr result (Rose (S.faults sink.old) (S.faults sink.new)) }
    ensures never_fell { S.faults sink.old ≤ S.faults sink.new }
{
    match make_room(out, sink) {
        Ok(()) => {
            put_line(out, number, shape, row);
            Ok(())
        }
        Err(error) => Err(error),
    }
}

// Writes the lines of each hart, but for what stays in the buffer.
fn write_lines<S: Sink>(parts: &[HartPart; 2], out: &mut Out, sink: &mut S) -> Result<(), WriteErr>
    ensures carries { OnOk result ((rest : List ℕ) → Carries (S.written sink.old) out.old (of_each lines_text 0 parts.now ++ rest) (S.written sink.new) out.new rest) }
    ensures breaks { OnErr result ((rest : List ℕ) → Breaks (S.written sink.old) out.old (of_each lines_text 0 parts.now ++ rest) (S.written sink.new)) }
    ensures fault { OnErr result (Rose (S.faults sink.old) (S.faults sink.new)) }
    ensures never_fell { S.faults sink.old ≤ S.faults sink.new }
{
    for hart in 0..2u8 {
        match make_room(out, sink) {
            Ok(()) => put_lines(out, hart, &parts[hart as usize]),
            Err(error) => return Err(error),
        }
    }
    Ok(())
}

/// Writes the lines of a row of this number on a core with these stages, but for what stays in the buffer: the row, and then what each hart retires and writes.
pub fn write_row<S: Sink>(
    number: u32,
    shape: Shape,
    row: &BarrelRow,
    out: &mut Out,
    sink: &mut S,
) -> Result<(), WriteErr>
    ensures carries { OnOk result ((rest : List ℕ) → Carries (S.written sink.old) out.old (barrel_row_text shape.stages number row.now ++ rest) (S.written sink.new) out.new rest) }
    ensures breaks { OnErr result ((rest : List ℕ) → Breaks (S.written sink.old) out.old (barrel_row_text shape.stages number row.now ++ rest) (S.written sink.new)) }
    ensures fault { OnErr result (Rose (S.faults sink.old) (S.faults sink.new)) }
    ensures never_fell { S.faults sink.old ≤ S.faults sink.new }
{
    match write_line(number, shape, row, out, sink) {
        Ok(()) => write_lines(&row.parts, out, sink),
        Err(error) => Err(error),
    }
}
