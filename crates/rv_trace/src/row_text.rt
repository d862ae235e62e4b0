ghost use Rattle.std.specs.Prelude.{◌≡◌, ◌+◌, ◌*◌, ◌/◌, ◌%◌, ◌^◌, ◌<◌, ◌≤◌, ◌++◌, length, take, codes, decimal, Option, Some};
ghost use Rattle.std.specs.List.{flat_map};
ghost use Rattle.ix_io.specs.Out.{hex_digits};
ghost use Rattle.rv_trace.specs.Trace.{has_serial};
ghost use Rattle.rv_trace.specs.TraceText.{hex_word_text, stop_text, target_text, hold_text, held_text, stage_text, mark_text, retired_serial as specified_retired_serial, written_serial as specified_written_serial, redirect_text, taken_text, row_stop_text, x_write_text, custom_write_text, custom_writes_text, store_text, next_text, writes_text, retired_text, written_text, row_line, row_text, register_text, registers_text};

use crate::row::{Cell, Hold, Row};
use ix_bits::Bits;
use ix_io::Out;
use ix_plan::Target;
use rv_core::Shape;
use rv_seq::{Access, Commit, Slot, Stop};

/// Appends at most 10 digits.
pub fn put_number(out: &mut Out, number: u32)
    requires { length out.old + 10 ≤ 65536 }
    ensures text { out.new ≡ out.old ++ decimal number }
    ensures few { length out.new ≤ length out.old + 10 }
{
    out.decimal(u64::from(number));
}

/// Appends at most 3 digits.
pub fn put_small(out: &mut Out, number: u8)
    requires { length out.old + 3 ≤ 65536 }
    ensures text { out.new ≡ out.old ++ decimal number }
    ensures few { length out.new ≤ length out.old + 3 }
{
    out.decimal(u64::from(number));
}

/// Appends eight hexadecimal digits.
pub fn put_word(out: &mut Out, word: u32)
    requires { length out.old + 8 ≤ 65536 }
    ensures text { out.new ≡ out.old ++ hex_word_text word }
    ensures few { length out.new ≡ length out.old + 8 }
{
    let pattern = Bits {
        raw: u128::from(word),
        width: 32,
    };
    out.hex(pattern, 8);
}

/// Appends the name of a stop.
pub fn put_stop(out: &mut Out, stop: Stop)
    requires { length out.old + 10 ≤ 65536 }
    ensures text { out.new ≡ out.old ++ stop_text stop }
    ensures few { length out.new ≤ length out.old + 10 }
{
    match stop {
        Stop::Ecall => out.text("Ecall"),
        Stop::Ebreak => out.text("Ebreak"),
        Stop::Illegal => out.text("Illegal"),
        Stop::Fetch => out.text("Fetch"),
        Stop::Misaligned => out.text("Misaligned"),
        Stop::DataRange => out.text("DataRange"),
        Stop::Target => out.text("Target"),
    }
}

/// Appends the letter and the number of a register: `x` or `c`, and at most 3 digits.
pub fn put_target(out: &mut Out, target: Target)
    requires { length out.old + 4 ≤ 65536 }
    ensures text { out.new ≡ out.old ++ target_text target }
    ensures few { length out.new ≤ length out.old + 4 }
{
    match target {
        Target::X(number) => {
            out.text("x");
            put_small(out, number);
        }
        Target::Custom(number) => {
            out.text("c");
            put_small(out, number);
        }
    }
}

/// Appends a hold's name, up to its bracket, and the number that it names.
fn put_number_hold(out: &mut Out, name: &str, number: u32)
    requires short { length name.now ≤ 11 }
    requires room { length out.old + 22 ≤ 65536 }
    ensures text { out.new ≡ out.old ++ (name.now ++ decimal number ++ codes ")") }
    ensures few { length out.new ≤ length out.old + 22 }
{
    out.text(name);
    put_number(out, number);
    out.text(")");
}

/// Appends a hold's name, up to the letter of its register, and the register and the serial that it names.
fn put_register_hold(out: &mut Out, name: &str, register: u8, serial: u32)
    requires short { length name.now ≤ 9 }
    requires room { length out.old + 24 ≤ 65536 }
    ensures text { out.new ≡ out.old ++ (name.now ++ decimal register ++ codes "," ++ decimal serial ++ codes ")") }
    ensures few { length out.new ≤ length out.old + 24 }
{
    out.text(name);
    put_small(out, register);
    out.text(",");
    put_number(out, serial);
    out.text(")");
}

/// Appends the hold of a register with an outstanding write.
fn put_board(out: &mut Out, target: Target, serial: u32)
    requires { length out.old + 22 ≤ 65536 }
    ensures text { out.new ≡ out.old ++ (codes "Board(" ++ target_text target ++ codes "," ++ decimal serial ++ codes ")") }
    ensures few { length out.new ≤ length out.old + 22 }
{
    out.text("Board(");
    put_target(out, target);
    out.text(",");
    put_number(out, serial);
    out.text(")");
}

/// Appends the name of a hold, with what it names in brackets.
pub fn put_hold(out: &mut Out, hold: Hold)
    requires { length out.old + 25 ≤ 65536 }
    ensures text { out.new ≡ out.old ++ hold_text hold }
    ensures few { length out.new ≤ length out.old + 25 }
{
    match hold {
        Hold::Operand(r, serial) => put_register_hold(out, "Operand(x", r, serial),
        Hold::Board(target, serial) => put_board(out, target, serial),
        Hold::Custom(c, serial) => put_register_hold(out, "Custom(c", c, serial),
        Hold::Late(serial) => put_number_hold(out, "Late(", serial),
        Hold::Trap => out.text("Trap"),
        Hold::Drain(serial) => put_number_hold(out, "Drain(", serial),
        Hold::Wait(left) => put_number_hold(out, "Wait(", u32::from(left)),
        Hold::StoreAhead(serial) => put_number_hold(out, "StoreAhead(", serial),
        Hold::Tail(left) => put_number_hold(out, "Tail(", u32::from(left)),
        Hold::UnitFull(unit) => put_number_hold(out, "UnitFull(", u32::from(unit)),
        Hold::Port(serial) => put_number_hold(out, "Port(", serial),
        Hold::Behind => out.text("Behind"),
    }
}

fn is_among(flushed: &[Option<u32>; 5], serial: u32) -> bool
    ensures { result ≡ has_serial flushed.now serial }
{
    for one in flushed {
        if *one == Some(serial) {
            return true;
        }
    }
    false
}

fn put_held(out: &mut Out, is_flushed: bool, hold: Option<Hold>)
    requires { length out.old + 26 ≤ 65536 }
    ensures text { out.new ≡ out.old ++ held_text is_flushed hold }
    ensures few { length out.new ≤ length out.old + 26 }
{
    if !is_flushed {
        if let Some(hold) = hold {
            out.text("/");
            put_hold(out, hold);
        }
    }
}

fn put_stage(out: &mut Out, flushed: &[Option<u32>; 5], stage: Option<Cell>)
    requires { length out.old + 46 ≤ 65536 }
    ensures text { out.new ≡ out.old ++ stage_text flushed.now stage }
    ensures few { length out.new ≤ length out.old + 46 }
{
    match stage {
        None => out.text(" -"),
        Some(cell) => {
            out.text(" ");
            put_number(out, cell.serial);
            out.text("@");
            put_word(out, cell.at);
            put_held(out, is_among(flushed, cell.serial), cell.hold);
        }
    }
}

fn put_stages(out: &mut Out, flushed: &[Option<u32>; 5], stages: &[Option<Cell>])
    requires stages { length stages.now ≤ 5 }
    requires room { length out.old + 230 ≤ 65536 }
    ensures text { out.new ≡ out.old ++ flat_map (stage_text flushed.now) stages.now }
    ensures few { length out.new ≤ length out.old + 46 * length stages.now }
{
    for stage in stages {
        put_stage(out, flushed, *stage);
    }
}

/// Appends a mark of two bytes and a serial, if there is one.
fn put_mark(out: &mut Out, mark: &str, serial: Option<u32>)
    requires short { length mark.now ≡ 2 }
    requires room { length out.old + 12 ≤ 65536 }
    ensures text { out.new ≡ out.old ++ mark_text mark.now serial }
    ensures few { length out.new ≤ length out.old + 12 }
{
    if let Some(serial) = serial {
        out.text(mark);
        put_number(out, serial);
    }
}

fn retired_serial(retired: &Option<(u32, Commit)>) -> Option<u32>
    ensures { result ≡ specified_retired_serial retired.now }
{
    match retired {
        None => None,
        Some((serial, _)) => Some(*serial),
    }
}

fn written_serial(written: &Option<(u32, u8, Slot<u32>, [Slot<Bits>; 16])>) -> Option<u32>
    ensures { result ≡ specified_written_serial written.now }
{
    match written {
        None => None,
        Some((serial, ..)) => Some(*serial),
    }
}

fn put_flushed(out: &mut Out, flushed: &[Option<u32>; 5])
    requires { length out.old + 60 ≤ 65536 }
    ensures text { out.new ≡ out.old ++ flat_map (mark_text (codes " f")) flushed.now }
    ensures few { length out.new ≤ length out.old + 60 }
{
    for serial in flushed {
        put_mark(out, " f", *serial);
    }
}

fn put_redirect(out: &mut Out, redirect: Option<u32>)
    requires { length out.old + 10 ≤ 65536 }
    ensures text { out.new ≡ out.old ++ redirect_text redirect }
    ensures few { length out.new ≤ length out.old + 10 }
{
    if let Some(address) = redirect {
        out.text(" p");
        put_word(out, address);
    }
}

fn put_taken(out: &mut Out, taken: Option<u32>)
    requires { length out.old + 10 ≤ 65536 }
    ensures text { out.new ≡ out.old ++ taken_text taken }
    ensures few { length out.new ≤ length out.old + 10 }
{
    if let Some(address) = taken {
        out.text(" i");
        put_word(out, address);
    }
}

fn put_row_stop(out: &mut Out, stop: Option<Stop>)
    requires { length out.old + 16 ≤ 65536 }
    ensures text { out.new ≡ out.old ++ row_stop_text stop }
    ensures few { length out.new ≤ length out.old + 16 }
{
    if let Some(stop) = stop {
        out.text(" stop ");
        put_stop(out, stop);
    }
}

/// Appends a write of an x register; one that comes later to x0 is not shown.
pub fn put_x_write(out: &mut Out, rd: u8, write: Slot<u32>)
    requires { length out.old + 14 ≤ 65536 }
    ensures text { out.new ≡ out.old ++ x_write_text rd write }
    ensures few { length out.new ≤ length out.old + 14 }
{
    match write {
        Slot::Absent => {}
        Slot::Now(value) => {
            out.text(" x");
            put_small(out, rd);
            out.text("=");
            put_word(out, value);
        }
        Slot::Later => {
            if rd != 0 {
                out.text(" x");
                put_small(out, rd);
                out.text("=later");
            }
        }
    }
}

fn put_custom_write(out: &mut Out, k: u8, write: Slot<Bits>)
    requires { length out.old + 38 ≤ 65536 }
    ensures text { out.new ≡ out.old ++ custom_write_text k write }
    ensures few { length out.new ≤ length out.old + 38 }
{
    match write {
        Slot::Absent => {}
        Slot::Now(value) => {
            out.text(" c");
            put_small(out, k);
            out.text("=");
            out.hex(value, (value.width + 3) / 4);
        }
        Slot::Later => {
            out.text(" c");
            put_small(out, k);
            out.text("=later");
        }
    }
}

/// Appends the writes of custom registers.
pub fn put_custom_writes(out: &mut Out, writes: &[Slot<Bits>; 16])
    requires { length out.old + 608 ≤ 65536 }
    ensures text { out.new ≡ out.old ++ custom_writes_text 0 writes.now }
    ensures few { length out.new ≤ length out.old + 608 }
{
    for k in 0..16u8 {
        put_custom_write(out, k, writes[k as usize]);
    }
}

fn put_store(out: &mut Out, store: Option<(Access, u32)>)
    requires { length out.old + 19 ≤ 65536 }
    ensures text { out.new ≡ out.old ++ store_text store }
    ensures few { length out.new ≤ length out.old + 19 }
{
    if let Some((access, value)) = store {
        out.text(" m");
        put_word(out, access.at);
        out.text("=");
        put_bytes(out, access.bytes, value);
    }
}

/// Appends two digits for each of so many low bytes of the value.
fn put_bytes(out: &mut Out, bytes: u8, value: u32)
    requires some { 0 < bytes }
    requires few { bytes ≤ 4 }
    requires room { length out.old + 8 ≤ 65536 }
    ensures text { out.new ≡ out.old ++ hex_digits (2 * bytes) (value % 2 ^ (8 * bytes)) }
    ensures few { length out.new ≤ length out.old + 8 }
{
    let width = 8 * bytes;
    let pattern = Bits {
        raw: u128::from(value) % (1 << width),
        width,
    };
    out.hex(pattern, 2 * bytes);
}

fn put_next(out: &mut Out, at: u32, next: u32)
    requires { length out.old + 12 ≤ 65536 }
    ensures text { out.new ≡ out.old ++ next_text at next }
    ensures few { length out.new ≤ length out.old + 12 }
{
    if next != at.wrapping_add(4) {
        out.text(" pc=");
        put_word(out, next);
    }
}

/// Appends the writes of an instruction.
pub fn put_writes(out: &mut Out, commit: &Commit)
    requires { length out.old + 653 ≤ 65536 }
    ensures text { out.new ≡ out.old ++ writes_text commit.now }
    ensures few { length out.new ≤ length out.old + 653 }
{
    put_x_write(out, commit.rd_index, commit.rd);
    put_custom_writes(out, &commit.custom);
    put_store(out, commit.store);
    put_next(out, commit.at, commit.next);
}

/// Appends the line of an instruction that retires, or of a step of a sequential run: its number, its address, its word and its writes. Takes no memory.
pub fn put_retired(out: &mut Out, retired: Option<(u32, Commit)>)
    requires { length out.old + 684 ≤ 65536 }
    ensures text { out.new ≡ out.old ++ retired_text retired }
    ensures few { length out.new ≤ length out.old + 684 }
{
    if let Some((serial, commit)) = retired {
        out.text("= ");
        put_number(out, serial);
        out.text(" ");
        put_word(out, commit.at);
        out.text(" ");
        put_word(out, commit.word);
        put_writes(out, &commit);
        out.text("\n");
    }
}

fn put_written(out: &mut Out, written: &Option<(u32, u8, Slot<u32>, [Slot<Bits>; 16])>)
    requires { length out.old + 635 ≤ 65536 }
    ensures text { out.new ≡ out.old ++ written_text written.now }
    ensures few { length out.new ≤ length out.old + 635 }
{
    if let Some(fields) = written {
        out.text("+ ");
        put_number(out, fields.0);
        put_x_write(out, fields.1, fields.2);
        put_custom_writes(out, &fields.3);
        out.text("\n");
    }
}

fn put_row_line(out: &mut Out, number: u32, shape: Shape, row: &Row)
    requires { length out.old + 361 ≤ 65536 }
    ensures text { out.new ≡ out.old ++ row_line shape.stages number row.now }
    ensures few { length out.new ≤ length out.old + 361 }
{
    put_number(out, number);
    put_stages(out, &row.flushed, &row.cells[..usize::from(shape.stages)]);
    put_mark(out, " r", retired_serial(&row.retired));
    put_mark(out, " w", written_serial(&row.written));
    put_flushed(out, &row.flushed);
    put_redirect(out, row.redirect);
    put_taken(out, row.taken);
    put_row_stop(out, row.stop);
    out.text("\n");
}

/// Appends the lines of a row: its number, its stages and what happens in it, then a line for a retirement and one for an
/// outstanding write. Needs room for 2,048 bytes, and takes no memory.
#[tactic(auto, unfolding(crate::specs::TraceText::row_text))]
pub fn put_row(out: &mut Out, number: u32, shape: Shape, row: &Row)
    requires { length out.old + 2048 ≤ 65536 }
    ensures text { out.new ≡ out.old ++ row_text shape.stages number row.now }
    ensures few { length out.new ≤ length out.old + 2048 }
{
    put_row_line(out, number, shape, row);
    put_retired(out, row.retired);
    put_written(out, &row.written);
}

fn put_register(out: &mut Out, n: u8, value: u32)
    requires { length out.old + 14 ≤ 65536 }
    ensures text { out.new ≡ out.old ++ register_text n value }
    ensures few { length out.new ≤ length out.old + 14 }
{
    if value != 0 {
        out.text("x");
        put_small(out, n);
        out.text(" ");
        put_word(out, value);
        out.text("\n");
    }
}

/// Appends a line for each x register that is not 0. Takes no memory.
pub fn put_registers(out: &mut Out, x: &[u32; 32])
    requires { length out.old + 448 ≤ 65536 }
    ensures text { out.new ≡ out.old ++ registers_text 0 x.now }
    ensures few { length out.new ≤ length out.old + 448 }
{
    for n in 0..32u8 {
        put_register(out, n, x[n as usize]);
    }
}
