ghost use Rattle.std.specs.Prelude.{◌≡◌, ℕ, ◌<◌, ◌≤◌, ◌^◌, [], ◌++◌, true, false, length, OnOk, OnErr};
ghost use Rattle.ix_io.specs.Faults.{Rose};
ghost use Rattle.ix_io.specs.Sink.{AppendsFront};
ghost use Rattle.ix_dump.specs.Dump.{change_text, changes_text, number_before, raws, row_before, row_line, row_text, value_line, widths};
ghost use Rattle.ix_dump.specs.Parts.{Passes};

use crate::lines::{put_row_line, put_value_line};
use crate::parts::make_room;
use ix_bits::Bits;
use ix_io::{Out, Sink, WriteErr};

/// Writes the line of a row's time.
fn write_time<S: Sink>(number: u32, out: &mut Out, sink: &mut S) -> Result<(), WriteErr>
    ensures whole { OnOk result (Passes (S.written sink.old) (S.written sink.new) out.old out.new (row_line number)) }
    ensures front { OnErr result (AppendsFront (S.written sink.old) (S.written sink.new) (out.old ++ row_line number)) }
    ensures fault { OnErr result (Rose (S.faults sink.old) (S.faults sink.new)) }
    ensures never_fell { S.faults sink.old ≤ S.faults sink.new }
{
    make_room(out, sink)?;
    put_row_line(out, number);
    Ok(())
}

/// Whether a port is shown in a row: where it has another value than in the row before, and in row
/// 0.
fn is_shown(number: u32, before: u128, now: u128) -> bool
    ensures shown { result ≡ true → (k width : ℕ) → change_text k width (number_before number before) now ≡ value_line k width now }
    ensures hidden { result ≡ false → (k width : ℕ) → change_text k width (number_before number before) now ≡ [] }
{
    if number == 0 { true } else { before != now }
}

/// Writes the value of a port, by its number, where it is shown in a row.
fn write_change<S: Sink>(
    number: u32,
    k: u32,
    before: Bits,
    now: Bits,
    out: &mut Out,
    sink: &mut S,
) -> Result<(), WriteErr>
    ensures whole { OnOk result (Passes (S.written sink.old) (S.written sink.new) out.old out.new (change_text k now.width (number_before number before.raw) now.raw)) }
    ensures front { OnErr result (AppendsFront (S.written sink.old) (S.written sink.new) (out.old ++ change_text k now.width (number_before number before.raw) now.raw)) }
    ensures fault { OnErr result (Rose (S.faults sink.old) (S.faults sink.new)) }
    ensures never_fell { S.faults sink.old ≤ S.faults sink.new }
{
    if !is_shown(number, before.raw, now.raw) {
        return Ok(());
    }
    make_room(out, sink)?;
    put_value_line(out, k, now);
    Ok(())
}

/// Writes the values of the ports that are shown in a row.
fn write_changes<S: Sink>(
    number: u32,
    before: &[Bits],
    now: &[Bits],
    out: &mut Out,
    sink: &mut S,
) -> Result<(), WriteErr>
    requires same { length before.now ≡ length now.now }
    requires few { length now.now < 2 ^ 32 }
    ensures whole { OnOk result (Passes (S.written sink.old) (S.written sink.new) out.old out.new (changes_text (row_before number (raws before.now)) 0 (widths now.now) (raws now.now))) }
    ensures front { OnErr result (AppendsFront (S.written sink.old) (S.written sink.new) (out.old ++ changes_text (row_before number (raws before.now)) 0 (widths now.now) (raws now.now))) }
    ensures fault { OnErr result (Rose (S.faults sink.old) (S.faults sink.new)) }
    ensures never_fell { S.faults sink.old ≤ S.faults sink.new }
{
    for k in 0..now.len() {
        write_change(number, k as u32, before[k], now[k], out, sink)?;
    }
    Ok(())
}

/// Writes a row of a dump (IEEE 1364-2005, section 18.2.1), but for what stays in the buffer: its
/// time, which is its number, and the values of the ports that differ from those of the row before;
/// of row 0 all values, whatever stands in `before`. Both slices have the values of all ports by
/// number, each of its port's width, and fewer than 2^32. It takes no memory. After an `Err` a
/// front of what waited and of the row was sent.
pub fn write_row<S: Sink>(
    number: u32,
    before: &[Bits],
    now: &[Bits],
    out: &mut Out,
    sink: &mut S,
) -> Result<(), WriteErr>
    requires same { length before.now ≡ length now.now }
    requires few { length now.now < 2 ^ 32 }
    ensures whole { OnOk result (Passes (S.written sink.old) (S.written sink.new) out.old out.new (row_text (widths now.now) number (row_before number (raws before.now)) (raws now.now))) }
    ensures front { OnErr result (AppendsFront (S.written sink.old) (S.written sink.new) (out.old ++ row_text (widths now.now) number (row_before number (raws before.now)) (raws now.now))) }
    ensures fault { OnErr result (Rose (S.faults sink.old) (S.faults sink.new)) }
    ensures never_fell { S.faults sink.old ≤ S.faults sink.new }
{
    write_time(number, out, sink)?;
    write_changes(number, before, now, out, sink)
}
