ghost use Rattle.std.specs.Prelude.{◌≡◌, ◌<◌, IfSome};
ghost use Rattle.rv_trace.specs.Trace.{retires as specified_retires};
ghost use Rattle.rv_lawful.specs.Outstanding.{is_serial, serial_written};
ghost use Rattle.rv_holdings.specs.Expected.{IsInRange, does_withhold, is_left as specified_is_left, meets as specified_meets, still_owes, oldest as specified_oldest, first_owed as specified_first_owed};

use crate::board::does_spawn;
use crate::older::is_among;
use crate::want::Want;
use rv_core::Shape;
use rv_rows::Owed;
use rv_trace::Row;

/// Whether the row retires this serial.
fn retires(row: &Row, serial: u32) -> bool
    ensures { result ≡ specified_retires row.now.retired serial }
{
    match row.retired {
        None => false,
        Some(retired) => retired.0 == serial,
    }
}

/// Whether the row writes what this serial owes.
fn is_written(row: &Row, serial: u32) -> bool
    ensures { result ≡ is_serial (serial_written row.now.written) serial }
{
    match row.written {
        None => false,
        Some(written) => written.0 == serial,
    }
}

/// Whether the instruction of a stage is not done by the end of the row.
fn is_left(row: &Row, other: &Owed) -> bool
    ensures { result ≡ specified_is_left row.now other.now }
{
    if !retires(row, other.serial) {
        return true;
    }
    other.asks.unit.is_some() && !is_written(row, other.serial)
}

fn withholds(shape: Shape, r: u8, stage: usize, other: &Owed) -> bool
    ensures { result ≡ does_withhold shape r stage other.now }
{
    other.asks.destination == r && !(shape.forward && usize::from(other.asks.x_time) < stage)
}

/// Whether the instruction of a stage is what is looked for.
fn meets(shape: Shape, row: &Row, want: Want, stage: usize, other: &Owed) -> bool
    requires { IsInRange want }
    ensures { result ≡ specified_meets shape row.now want stage other.now }
{
    match want {
        Want::Operand(r) => withholds(shape, r, stage, other),
        Want::Board(number) => does_spawn(&other.asks, number),
        Want::Custom(r) => other.asks.late_customs[usize::from(r)],
        Want::Late => other.asks.late,
        Want::Drain => is_left(row, other),
        Want::Store => other.asks.stores,
    }
}

/// The oldest instruction in the stages that is what is looked for.
pub fn oldest(shape: Shape, row: &Row, want: Want, older: &[Option<Owed>]) -> Option<u32>
    requires { IsInRange want }
    ensures { result ≡ specified_oldest shape row.now want 0 older.now }
{
    let mut found = None;
    for stage in 0..older.len() {
        if let Some(other) = &older[stage] {
            if meets(shape, row, want, stage, other) {
                found = Some(other.serial);
            }
        }
    }
    found
}

/// Whether an instruction beside the stages owes the register of this number, or, without a number,
/// is not written by the end of the row.
fn owes(row: &Row, number: Option<u8>, other: &Owed) -> bool
    requires { IfSome number (λ n. n < 48) }
    ensures { result ≡ still_owes row.now number other.now }
{
    if is_among(&row.flushed, other.serial) {
        return false;
    }
    match number {
        None => !is_written(row, other.serial),
        Some(number) => does_spawn(&other.asks, number),
    }
}

/// The oldest that does.
pub fn first_owed(row: &Row, number: Option<u8>, owed: &[Owed]) -> Option<u32>
    requires { IfSome number (λ n. n < 48) }
    ensures { result ≡ specified_first_owed row.now number owed.now }
{
    for other in owed {
        if owes(row, number, other) {
            return Some(other.serial);
        }
    }
    None
}
