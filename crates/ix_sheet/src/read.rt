ghost use Rattle.std.specs.Prelude.{codes, ◌≡◌, ◌≢◌, ℕ, ◌<◌, ◌≤◌, pos, Some, None, All, [], slice_index, slice_index_or, is_some, option_map, option_and_then, OnOk, IfOk, IfErr, IfSome};
ghost use Rattle.toml.specs.Data.{as_table, get_member};
ghost use Rattle.toml.specs.View.{view, table_view};
ghost use Rattle.ix_graph.specs.Kinds.{kind_words};
ghost use Rattle.ix_sheet.specs.Datasheets.{section, core_named, core_of, period_of, period_refusal, lifetime_named, lifetime_of, lifetime_refusal, delay_rule, window_rule, window_given, first_refusal, content_refusal, document_refusal, delay_in, window_in, HasContent, HasFields, IsSheetOf, IsRefusalOf};
ghost use Rattle.ix_sheet.specs.Reading.{rule_of};
ghost use Rattle.ix_sheet.specs.Sheets.{native_windows_of, window_at, IsInside, IsValidSheet};

use crate::rules::{Part, judge, number_pair, shown_name, whole_number, window_inside};
use crate::sheet::{Sheet, SheetErr, native_windows};
use ix_graph::kind_word;
use rv_core::{CoreKind, Shape};
use std::alloc::Global;
use toml::{Table, Value};

/// The datasheet that a text is: TOML 1.1 with the keys `core`, `period`, `lifetime`, `delay` and `window`.
/// A text that is none is refused for the first of these reasons: it is no UTF-8, no TOML, has a key at the top that it
/// should not have, no core, no period, a bad lifetime, a bad delay, a bad window; within a table the keys go by their bytes.
pub fn read_sheet(alloc: Global, bytes: &[u8]) -> Result<Sheet, SheetErr>
    ensures ok { IfOk result (IsSheetOf bytes.now) }
    ensures valid { IfOk result IsValidSheet }
    ensures err { IfErr result (λ error. error ≢ SheetErr.Memory → IsRefusalOf bytes.now error) }
{
    let text = match std::str::from_utf8(bytes) {
        Ok(text) => text,
        Err(_) => return Err(SheetErr::Utf8),
    };
    match toml::table_from_str(alloc, text) {
        Ok(table) => read_document(alloc, &table),
        Err(error) if error.is_memory() => Err(SheetErr::Memory),
        Err(_) => Err(SheetErr::Toml),
    }
}

// The datasheet that a document is.
fn read_document(alloc: Global, doc: &Table) -> Result<Sheet, SheetErr>
    ensures ok { OnOk result (document_refusal (table_view doc.now) ≡ None) }
    ensures fields { IfOk result (HasFields (table_view doc.now)) }
    ensures valid { IfOk result IsValidSheet }
    ensures err { IfErr result (λ e. e ≢ SheetErr.Memory → document_refusal (table_view doc.now) ≡ Some e) }
{
    judge(alloc, Part::Top, doc)?;
    match core_kind(doc) {
        Some(core) => read_content(alloc, doc, core.shape()),
        None => Err(SheetErr::Core),
    }
}

// The datasheet that a document is for a core of this shape.
fn read_content(alloc: Global, doc: &Table, shape: Shape) -> Result<Sheet, SheetErr>
    ensures ok { OnOk result (content_refusal (native_windows_of shape) (table_view doc.now) ≡ None) }
    ensures shape { IfOk result (λ sheet. sheet.shape ≡ shape) }
    ensures content { IfOk result (HasContent (table_view doc.now)) }
    ensures valid { IfOk result IsValidSheet }
    ensures err { IfErr result (λ e. e ≢ SheetErr.Memory → content_refusal (native_windows_of shape) (table_view doc.now) ≡ Some e) }
{
    let period = read_period(alloc, doc)?;
    let weighted = read_lifetime(alloc, doc)?;
    judge_section(alloc, Part::Delay, doc, "delay")?;
    judge_section(alloc, Part::Window(shape), doc, "window")?;
    Ok(Sheet {
        shape,
        period,
        weighted,
        delay: read_delays(doc),
        window: read_windows(doc, shape),
    })
}

// The value at a key.
fn value_at<'a>(table: &'a Table, key: &str) -> Option<&'a Value>
    ensures { option_map (λ v. view v.now) result ≡ get_member key.now (table_view table.now) }
{
    table.get(key)
}

// The table at a key, if there is a table.
fn table_at<'a>(doc: &'a Table, key: &str) -> Option<&'a Table>
    ensures { option_map (λ t. table_view t.now) result ≡ option_and_then as_table (get_member key.now (table_view doc.now)) }
{
    match value_at(doc, key) {
        Some(value) => value.as_table(),
        None => None,
    }
}

// The core that a document names.
fn core_kind(doc: &Table) -> Option<CoreKind>
    ensures { result ≡ core_of (table_view doc.now) }
{
    match value_at(doc, "core") {
        Some(value) => match value.as_str() {
            Some(name) => core_by_name(name),
            None => None,
        },
        None => None,
    }
}

fn core_by_name(name: &str) -> Option<CoreKind>
    ensures { result ≡ core_named name.now }
{
    match name {
        "three" => Some(CoreKind::Three),
        "four" => Some(CoreKind::Four),
        "five" => Some(CoreKind::Five),
        "three_f" => Some(CoreKind::ThreeF),
        "five_f" => Some(CoreKind::FiveF),
        _ => None,
    }
}

// The period that a document gives.
fn read_period(alloc: Global, doc: &Table) -> Result<u32, SheetErr>
    ensures ok { OnOk result (period_refusal (table_view doc.now) ≡ None) }
    ensures value { IfOk result (λ period. period_of (table_view doc.now) ≡ Some (pos period)) }
    ensures some { IfOk result (λ period. 1 ≤ period) }
    ensures most { IfOk result (λ period. period ≤ 1000000) }
    ensures err { IfErr result (λ e. e ≢ SheetErr.Memory → period_refusal (table_view doc.now) ≡ Some e) }
{
    let number = match value_at(doc, "period") {
        Some(value) => whole_number(value, 1, 1_000_000),
        None => None,
    };
    match number {
        Some(period) => Ok(period),
        None => Err(SheetErr::Number {
            name: shown_name(alloc, "period")?,
        }),
    }
}

// Whether the word is one for lifetimes that are weighed by width.
fn weighs_by_width(word: &str) -> Option<bool>
    ensures { result ≡ lifetime_named word.now }
{
    match word {
        "width" => Some(true),
        "unit" => Some(false),
        _ => None,
    }
}

// Whether a document weighs lifetimes by width: not where it says nothing of them.
fn lifetime_in(doc: &Table) -> Option<bool>
    ensures { result ≡ lifetime_of (table_view doc.now) }
{
    match value_at(doc, "lifetime") {
        Some(value) => match value.as_str() {
            Some(word) => weighs_by_width(word),
            None => None,
        },
        None => Some(false),
    }
}

fn read_lifetime(alloc: Global, doc: &Table) -> Result<bool, SheetErr>
    ensures ok { OnOk result (lifetime_refusal (table_view doc.now) ≡ None) }
    ensures value { IfOk result (λ weighted. lifetime_of (table_view doc.now) ≡ Some weighted) }
    ensures err { IfErr result (λ e. e ≢ SheetErr.Memory → lifetime_refusal (table_view doc.now) ≡ Some e) }
{
    match lifetime_in(doc) {
        Some(weighted) => Ok(weighted),
        None => Err(SheetErr::Number {
            name: shown_name(alloc, "lifetime")?,
        }),
    }
}

// Judges the members of the table under a key, of which there are none where there is no table.
fn judge_section(alloc: Global, part: Part, doc: &Table, name: &str) -> Result<(), SheetErr>
    ensures ok { OnOk result (first_refusal (rule_of part) (section name.now (table_view doc.now)) ≡ None) }
    ensures err { IfErr result (λ e. e ≢ SheetErr.Memory → first_refusal (rule_of part) (section name.now (table_view doc.now)) ≡ Some e) }
{
    match table_at(doc, name) {
        Some(table) => judge(alloc, part, table),
        None => Ok(()),
    }
}

// The value at a key of the table under another.
fn member<'a>(doc: &'a Table, name: &str, key: &str) -> Option<&'a Value>
    ensures { option_map (λ v. view v.now) result ≡ get_member key.now (section name.now (table_view doc.now)) }
{
    match table_at(doc, name) {
        Some(table) => value_at(table, key),
        None => None,
    }
}

// The delay that a document gives a kind, 0 where it gives none.
fn read_delay(doc: &Table, word: &str) -> u32
    requires { first_refusal delay_rule (section (codes "delay") (table_view doc.now)) ≡ None }
    ensures value { result ≡ delay_in (table_view doc.now) word.now }
    ensures most { result ≤ 1000000 }
{
    match member(doc, "delay", word) {
        Some(value) => whole_number(value, 0, 1_000_000).unwrap_or(0),
        None => 0,
    }
}

fn read_delays(doc: &Table) -> [u32; 34]
    requires { first_refusal delay_rule (section (codes "delay") (table_view doc.now)) ≡ None }
    ensures values { (k : ℕ) → k < 34 → slice_index result k ≡ delay_in (table_view doc.now) (slice_index_or kind_words k []) }
    ensures most { All (λ delay. delay ≤ 1000000) result }
{
    let mut delays = [0; 34];
    for number in 0..34u8 {
        delays[number as usize] = read_delay(doc, kind_word(number));
    }
    delays
}

// The window that a document gives a kind, if it gives one.
fn given_window(doc: &Table, word: &str) -> Option<(i64, i64)>
    ensures { result ≡ option_and_then window_given (get_member word.now (section (codes "window") (table_view doc.now))) }
{
    match member(doc, "window", word) {
        Some(value) => number_pair(value),
        None => None,
    }
}

// The window of one of the ten first kinds, the native one where the document gives none.
fn read_window(doc: &Table, shape: Shape, number: u8) -> (u8, u8)
    requires below { number < 10 }
    requires passed { first_refusal (window_rule (native_windows_of shape)) (section (codes "window") (table_view doc.now)) ≡ None }
    ensures value { result ≡ window_in (table_view doc.now) (window_at (native_windows_of shape) number) (slice_index_or kind_words number []) }
    ensures inside { IsInside (window_at (native_windows_of shape) number) result }
{
    let native = native_windows(shape)[number as usize];
    match given_window(doc, kind_word(number)) {
        Some(window) => window_inside(native, window).unwrap_or(native),
        None => native,
    }
}

fn read_windows(doc: &Table, shape: Shape) -> [(u8, u8); 10]
    requires { first_refusal (window_rule (native_windows_of shape)) (section (codes "window") (table_view doc.now)) ≡ None }
    ensures values { (k : ℕ) → k < 10 → window_at result k ≡ window_in (table_view doc.now) (window_at (native_windows_of shape) k) (slice_index_or kind_words k []) }
    ensures inside { (k : ℕ) → k < 10 → IsInside (window_at (native_windows_of shape) k) (window_at result k) }
{
    let mut windows = [(0, 0); 10];
    for number in 0..10u8 {
        windows[number as usize] = read_window(doc, shape, number);
    }
    windows
}
