ghost use Rattle.std.specs.Prelude.{◌≡◌, ◌+◌, ◌*◌, ◌≤◌, ◌<◌, ◌++◌, length, codes, decimal};
ghost use Rattle.std.specs.List.{flat_map};
ghost use Rattle.rv_trace.specs.TraceText.{mark_text, retired_serial as specified_retired_serial, written_serial as specified_written_serial};
ghost use Rattle.rv_barrel_text.specs.BarrelRowText.{hart_text, turn_text, turned_text, cell_text, led_text, hart_stop_text, marks_text, hart_retired_text, hart_written_text, lines_text, of_each, barrel_line};

use ix_bits::Bits;
use ix_io::Out;
use rv_core::Shape;
use rv_harts::{BarrelCell, BarrelRow, HartPart, Turn};
use rv_seq::{Commit, Slot, Stop};
use rv_trace::{
    Hold, put_custom_writes, put_hold, put_number, put_small, put_stop, put_word, put_writes,
    put_x_write,
};

/// Appends the letter of a hart.
pub fn put_hart(out: &mut Out, hart: u8)
    requires { length out.old + 1 ≤ 65536 }
    ensures text { out.new ≡ out.old ++ hart_text hart }
    ensures few { length out.new ≤ length out.old + 1 }
{
    if hart == 0 {
        out.text("a");
    } else {
        out.text("b");
    }
}

// Appends the turn of an instruction whose unit has an older one.
fn put_unit(out: &mut Out, unit: u8, serial: u32)
    requires { length out.old + 20 ≤ 65536 }
    ensures text { out.new ≡ out.old ++ (codes "Unit(" ++ decimal unit ++ codes "," ++ decimal serial ++ codes ")") }
    ensures few { length out.new ≤ length out.old + 20 }
{
    out.text("Unit(");
    put_small(out, unit);
    out.text(",");
    put_number(out, serial);
    out.text(")");
}

fn put_turn(out: &mut Out, turn: Turn)
    requires { length out.old + 25 ≤ 65536 }
    ensures text { out.new ≡ out.old ++ turn_text turn }
    ensures few { length out.new ≤ length out.old + 25 }
{
    match turn {
        Turn::Operand(r, serial) => put_hold(out, Hold::Operand(r, serial)),
        Turn::Board(target, serial) => put_hold(out, Hold::Board(target, serial)),
        Turn::Custom(c, serial) => put_hold(out, Hold::Custom(c, serial)),
        Turn::Late(serial) => put_hold(out, Hold::Late(serial)),
        Turn::Unit(unit, serial) => put_unit(out, unit, serial),
        Turn::Drain(serial) => put_hold(out, Hold::Drain(serial)),
    }
}

fn put_turned(out: &mut Out, turned: Option<Turn>)
    requires { length out.old + 26 ≤ 65536 }
    ensures text { out.new ≡ out.old ++ turned_text turned }
    ensures few { length out.new ≤ length out.old + 26 }
{
    if let Some(turn) = turned {
        out.text("/");
        put_turn(out, turn);
    }
}

fn put_cell(out: &mut Out, cell: Option<BarrelCell>)
    requires { length out.old + 47 ≤ 65536 }
    ensures text { out.new ≡ out.old ++ cell_text cell }
    ensures few { length out.new ≤ length out.old + 47 }
{
    match cell {
        None => out.text(" -"),
        Some(cell) => {
            out.text(" ");
            put_hart(out, cell.hart);
            put_number(out, cell.serial);
            out.text("@");
            put_word(out, cell.at);
            put_turned(out, cell.turned);
        }
    }
}

fn put_cells(out: &mut Out, cells: &[Option<BarrelCell>])
    requires few { length cells.now ≤ 5 }
    requires room { length out.old + 235 ≤ 65536 }
    ensures text { out.new ≡ out.old ++ flat_map cell_text cells.now }
    ensures few { length out.new ≤ length out.old + 47 * length cells.now }
{
    for cell in cells {
        put_cell(out, *cell);
    }
}

// Appends a mark of two bytes, a hart and a serial, if there is one.
fn put_mark(out: &mut Out, mark: &str, hart: u8, serial: Option<u32>)
    requires short { length mark.now ≡ 2 }
    requires room { length out.old + 13 ≤ 65536 }
    ensures text { out.new ≡ out.old ++ mark_text (mark.now ++ hart_text hart) serial }
    ensures few { length out.new ≤ length out.old + 13 }
{
    if let Some(serial) = serial {
        out.text(mark);
        put_hart(out, hart);
        put_number(out, serial);
    }
}

fn retired_serial(retired: &Option<(u32, Commit)>) -> Option<u32>
    ensures { result ≡ specified_retired_serial retired.now }
{
    match retired {
        None => None,
        Some((serial, _)) => Some(*serial),
    }
}

fn written_serial(written: &Option<(u32, u8, Slot<u32>, [Slot<Bits>; 16])>) -> Option<u32>
    ensures { result ≡ specified_written_serial written.now }
{
    match written {
        None => None,
        Some((serial, ..)) => Some(*serial),
    }
}

fn put_flushed(out: &mut Out, hart: u8, flushed: &[Option<u32>; 5])
    requires { length out.old + 65 ≤ 65536 }
    ensures text { out.new ≡ out.old ++ flat_map (mark_text (codes " f" ++ hart_text hart)) flushed.now }
    ensures few { length out.new ≤ length out.old + 65 }
{
    for serial in flushed {
        put_mark(out, " f", hart, *serial);
    }
}

fn put_led(out: &mut Out, hart: u8, redirect: Option<u32>)
    requires { length out.old + 11 ≤ 65536 }
    ensures text { out.new ≡ out.old ++ led_text hart redirect }
    ensures few { length out.new ≤ length out.old + 11 }
{
    if let Some(address) = redirect {
        out.text(" p");
        put_hart(out, hart);
        put_word(out, address);
    }
}

fn put_hart_stop(out: &mut Out, hart: u8, stop: Option<Stop>)
    requires { length out.old + 18 ≤ 65536 }
    ensures text { out.new ≡ out.old ++ hart_stop_text hart stop }
    ensures few { length out.new ≤ length out.old + 18 }
{
    if let Some(stop) = stop {
        out.text(" stop ");
        put_hart(out, hart);
        out.text(" ");
        put_stop(out, stop);
    }
}

fn put_marks(out: &mut Out, hart: u8, part: &HartPart)
    requires { length out.old + 120 ≤ 65536 }
    ensures text { out.new ≡ out.old ++ marks_text hart part.now }
    ensures few { length out.new ≤ length out.old + 120 }
{
    put_mark(out, " r", hart, retired_serial(&part.retired));
    put_mark(out, " w", hart, written_serial(&part.written));
    put_flushed(out, hart, &part.flushed);
    put_led(out, hart, part.redirect);
    put_hart_stop(out, hart, part.stop);
}

fn put_both_marks(out: &mut Out, parts: &[HartPart; 2])
    requires { length out.old + 240 ≤ 65536 }
    ensures text { out.new ≡ out.old ++ of_each marks_text 0 parts.now }
    ensures few { length out.new ≤ length out.old + 240 }
{
    for hart in 0..2u8 {
        put_marks(out, hart, &parts[hart as usize]);
    }
}

fn put_hart_retired(out: &mut Out, hart: u8, retired: &Option<(u32, Commit)>)
    requires { length out.old + 685 ≤ 65536 }
    ensures text { out.new ≡ out.old ++ hart_retired_text hart retired.now }
    ensures few { length out.new ≤ length out.old + 685 }
{
    if let Some((serial, commit)) = retired {
        out.text("=");
        put_hart(out, hart);
        out.text(" ");
        put_number(out, *serial);
        out.text(" ");
        put_word(out, commit.at);
        out.text(" ");
        put_word(out, commit.word);
        put_writes(out, commit);
        out.text("\n");
    }
}

fn put_hart_written(
    out: &mut Out,
    hart: u8,
    written: &Option<(u32, u8, Slot<u32>, [Slot<Bits>; 16])>,
)
    requires { length out.old + 636 ≤ 65536 }
    ensures text { out.new ≡ out.old ++ hart_written_text hart written.now }
    ensures few { length out.new ≤ length out.old + 636 }
{
    if let Some(fields) = written {
        out.text("+");
        put_hart(out, hart);
        out.text(" ");
        put_number(out, fields.0);
        put_x_write(out, fields.1, fields.2);
        put_custom_writes(out, &fields.3);
        out.text("\n");
    }
}

/// Appends the line of a row: its number, its stages, and the marks of both harts. Needs room for 486 bytes, and takes no memory.
pub fn put_line(out: &mut Out, number: u32, shape: Shape, row: &BarrelRow)
    requires { length out.old + 486 ≤ 65536 }
    ensures text { out.new ≡ out.old ++ barrel_line shape.stages number row.now }
    ensures few { length out.new ≤ length out.old + 486 }
{
    put_number(out, number);
    put_cells(out, &row.cells[..usize::from(shape.stages)]);
    put_both_marks(out, &row.parts);
    out.text("\n");
}

/// Appends the lines of a hart behind that of a row: what it retires, and what is written of what was outstanding. Needs room for 1,321 bytes, and takes no memory.
pub fn put_lines(out: &mut Out, hart: u8, part: &HartPart)
    requires { length out.old + 1321 ≤ 65536 }
    ensures text { out.new ≡ out.old ++ lines_text hart part.now }
    ensures few { length out.new ≤ length out.old + 1321 }
{
    put_hart_retired(out, hart, &part.retired);
    put_hart_written(out, hart, &part.written);
}
