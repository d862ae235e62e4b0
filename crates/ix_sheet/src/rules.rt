ghost use Rattle.std.specs.Prelude.{◌≡◌, ◌≢◌, ◌≤◌, pos, is_some, IfSome, Some, None, IfOk, IfErr, OnOk, option_and_then};
ghost use Rattle.toml.specs.Data.{as_integer};
ghost use Rattle.toml.specs.View.{view, items_view, table_view};
ghost use Rattle.ix_sheet.specs.Datasheets.{shown, is_top_member, is_whole, natural_of, two_numbers, window_given, is_inside, top_rule, delay_rule, window_rule, first_refusal};
ghost use Rattle.ix_sheet.specs.Reading.{rule_of};
ghost use Rattle.ix_sheet.specs.Sheets.{native_windows_of, IsInside};

use crate::sheet::{SheetErr, native_windows};
use ix_bits::{Memory, Name};
use ix_graph::kind_number;
use rv_core::Shape;
use std::alloc::Global;
use toml::{Table, Value};

/// A part of a datasheet, by whose rule its members are judged.
#[derive(Clone, Copy)]
pub(crate) enum Part {
    Top,
    Delay,
    /// The windows of a core of this shape.
    Window(Shape),
}

/// A key as a refusal names it.
pub(crate) fn shown_name(alloc: Global, key: &str) -> Result<Name, Memory>
    ensures { IfOk result (λ name. name ≡ shown key.now) }
{
    let bytes = key.as_bytes();
    let front = &bytes[..bytes.len().min(64)];
    let mut text = String::new(alloc);
    for byte in front {
        let seen = if byte.is_ascii_graphic() {
            *byte as char
        } else {
            '?'
        };
        text.push(seen)?;
    }
    Name::from_text(alloc, text.as_str())
}

// Whether a datasheet has this key at the top, and this type of value there.
fn belongs_at_top(key: &str, value: &Value) -> bool
    ensures { result ≡ is_top_member key.now (view value.now) }
{
    match key {
        "core" | "period" | "lifetime" => true,
        "delay" | "window" => value.is_table(),
        _ => false,
    }
}

/// The value's number, where it is a whole one from low to high.
pub(crate) fn whole_number(value: &Value, low: u32, high: u32) -> Option<u32>
    ensures is { IfSome result (λ number. as_integer (view value.now) ≡ Some (pos number)) }
    ensures range { IfSome result (λ number. (low ≤ number) × (number ≤ high)) }
    ensures some { is_some result ≡ is_whole low high (as_integer (view value.now)) }
{
    match value.as_integer() {
        Some(number) if i64::from(low) <= number && number <= i64::from(high) => {
            Some(number as u32)
        }
        _ => None,
    }
}

/// The two whole numbers of an array of two.
pub(crate) fn number_pair(value: &Value) -> Option<(i64, i64)>
    ensures { result ≡ window_given (view value.now) }
{
    match value.as_array() {
        Some(items) => both_numbers(items.as_slice()),
        None => None,
    }
}

fn both_numbers(items: &[Value]) -> Option<(i64, i64)>
    ensures { result ≡ two_numbers (items_view items.now) }
{
    match items {
        [first, last] => Some((first.as_integer()?, last.as_integer()?)),
        _ => None,
    }
}

/// The window, where it is not empty and lies inside the native one.
pub(crate) fn window_inside(native: (u8, u8), window: (i64, i64)) -> Option<(u8, u8)>
    ensures is { IfSome result (λ w. w ≡ (natural_of window.0, natural_of window.1)) }
    ensures inside { IfSome result (IsInside native) }
    ensures some { is_some result ≡ is_inside native window }
{
    let (first, last) = window;
    if i64::from(native.0) <= first && first <= last && last <= i64::from(native.1) {
        Some((first as u8, last as u8))
    } else {
        None
    }
}

fn judge_top(alloc: Global, key: &str, value: &Value) -> Result<(), SheetErr>
    ensures ok { OnOk result (top_rule key.now (view value.now) ≡ None) }
    ensures err { IfErr result (λ e. e ≢ SheetErr.Memory → top_rule key.now (view value.now) ≡ Some e) }
{
    if belongs_at_top(key, value) {
        return Ok(());
    }
    Err(SheetErr::Key {
        name: shown_name(alloc, key)?,
    })
}

fn judge_delay(alloc: Global, key: &str, value: &Value) -> Result<(), SheetErr>
    ensures ok { OnOk result (delay_rule key.now (view value.now) ≡ None) }
    ensures err { IfErr result (λ e. e ≢ SheetErr.Memory → delay_rule key.now (view value.now) ≡ Some e) }
{
    let name = shown_name(alloc, key)?;
    if kind_number(key).is_none() {
        return Err(SheetErr::Kind { name });
    }
    if whole_number(value, 0, 1_000_000).is_some() {
        Ok(())
    } else {
        Err(SheetErr::Number { name })
    }
}

fn judge_window(alloc: Global, shape: Shape, key: &str, value: &Value) -> Result<(), SheetErr>
    ensures ok { OnOk result (window_rule (native_windows_of shape) key.now (view value.now) ≡ None) }
    ensures err { IfErr result (λ e. e ≢ SheetErr.Memory → window_rule (native_windows_of shape) key.now (view value.now) ≡ Some e) }
{
    let name = shown_name(alloc, key)?;
    let native = match kind_number(key) {
        Some(number) if number < 10 => native_windows(shape)[number as usize],
        _ => return Err(SheetErr::Kind { name }),
    };
    match number_pair(value) {
        None => Err(SheetErr::Number { name }),
        Some(window) if window_inside(native, window).is_some() => Ok(()),
        Some(_) => Err(SheetErr::Window { op: name }),
    }
}

fn judge_member(alloc: Global, part: Part, key: &str, value: &Value) -> Result<(), SheetErr>
    ensures ok { OnOk result (rule_of part key.now (view value.now) ≡ None) }
    ensures err { IfErr result (λ e. e ≢ SheetErr.Memory → rule_of part key.now (view value.now) ≡ Some e) }
{
    match part {
        Part::Top => judge_top(alloc, key, value),
        Part::Delay => judge_delay(alloc, key, value),
        Part::Window(shape) => judge_window(alloc, shape, key, value),
    }
}

/// Judges the members of a table in the order of their keys, up to the first that is refused.
pub(crate) fn judge(alloc: Global, part: Part, table: &Table) -> Result<(), SheetErr>
    ensures ok { OnOk result (first_refusal (rule_of part) (table_view table.now) ≡ None) }
    ensures err { IfErr result (λ e. e ≢ SheetErr.Memory → first_refusal (rule_of part) (table_view table.now) ≡ Some e) }
{
    'members: for (key, value) in table.iter() {
        judge_member(alloc, part, key.as_str(), value)?;
    }
    Ok(())
}
