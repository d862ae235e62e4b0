ghost use Rattle.std.specs.Prelude.{◌≡◌, ◌≤◌, ◌++◌, codes, length, map, true, IfOk, IfErr};
ghost use Rattle.ix_io.specs.Faults.{NoneFell};
ghost use Rattle.ix_io.specs.Limits.{most_bytes};
ghost use Rattle.ix_cert.specs.declared.report.CertErr.TheVariants.{Memory};
ghost use Rattle.ix_listing.specs.RefusalLine.{refusal_line};
ghost use Rattle.ix_words.specs.CommandLine.{fits_slot, fits_slots, bytes_of};
ghost use Rattle.ix_words.specs.WordsRead.{numbered_line, file_line, certificate_line, sheet_text, sheet_line, Refuses, Judged, WordRead, WordsRefused, AreRead, RoseIn};
ghost use Rattle.ix_words.specs.Readings.{reading_of};
ghost use Rattle.ix_words.specs.declared.command.FileKind.{FileKind as Kind};
ghost use Rattle.ix_words.specs.declared.command.FileKind.TheVariants.{Image as image_kind, Report as report_kind, Extension as extension_kind, Sheet as sheet_kind, Source as source_kind, Waits as waits_kind, Lines as lines_kind, Trace as trace_kind};

use crate::command::{FileKind, Slot, number_within};
use crate::status::Status;
use ix_bits::List;
use ix_cert::{CertErr, certify};
use ix_elab::{FrontErr, elaborate};
use ix_io::{ReadErr, Shelf, read_all};
use ix_listing::refusal;
use ix_sheet::{Sheet, SheetErr, read_sheet};
use ix_tree::Extension;
use rv_asm::{TextErr, read_image, read_lines, read_waits};
use rv_isa::Image;
use rv_waits::{Lines, Waits};
use std::alloc::Global;

/// What a word of a command stands for.
#[derive(Drop)]
pub enum Value {
    /// A number.
    Number(u32),
    /// The image of a file.
    Image(Image),
    /// A report in which no step of the check found a fault.
    Report,
    /// The extension of a text.
    Extension(Extension),
    /// The datasheet of a text.
    Sheet(Sheet),
    /// The bytes of an assembly source.
    Source(List<u8>),
    /// The waits of a memory.
    Waits(Waits),
    /// The rows in which an interrupt line is raised.
    Lines(Lines),
    /// The bytes of the text of a trace.
    Trace(List<u8>),
}

/// Why a word stands for nothing: the status and the line of the refusal.
#[derive(Drop)]
pub enum Refusal {
    Line(Status, String),
    /// Memory was not found.
    Memory,
}

/// The refusal of a file.
fn file_refusal(alloc: Global, status: Status, kind: &str, name: &str) -> Refusal
    ensures { Refuses status (file_line kind.now name.now) result }
{
    match format!(in alloc; "refused {kind} {name}\n") {
        Ok(line) => Refusal::Line(status, line),
        Err(_) => Refusal::Memory,
    }
}

/// The refusal of a file for what stands at one of its numbers: that of a line of an image, of a wait, or of a row of an interrupt line.
fn numbered_refusal(alloc: Global, status: Status, kind: &str, number: u32) -> Refusal
    ensures { Refuses status (numbered_line kind.now number) result }
{
    match format!(in alloc; "refused {kind} {number}\n") {
        Ok(line) => Refusal::Line(status, line),
        Err(_) => Refusal::Memory,
    }
}

/// The refusal of a report.
fn report_refusal(alloc: Global, error: CertErr) -> Refusal
    ensures memory { error ≡ Memory → result ≡ Refusal.Memory }
    ensures line { Refuses Status.Certificate (certificate_line error) result }
{
    if let CertErr::Memory = error {
        return Refusal::Memory;
    }
    let line = error.line();
    let kind = error.kind();
    match format!(in alloc; "refused Certificate {line} {kind}\n") {
        Ok(line) => Refusal::Line(Status::Certificate, line),
        Err(_) => Refusal::Memory,
    }
}

/// The refusal of an extension.
fn extension_refusal(alloc: Global, error: &FrontErr) -> Refusal
    ensures memory { error.now ≡ FrontErr.Memory → result ≡ Refusal.Memory }
    ensures line { Refuses Status.Extension (refusal_line error.now) result }
{
    match refusal(alloc, error) {
        Ok(line) => Refusal::Line(Status::Extension, line),
        Err(_) => Refusal::Memory,
    }
}

/// The refusal of a datasheet by a rule that a key breaks.
fn sheet_refusal_at(alloc: Global, kind: &str, name: &str) -> Refusal
    ensures { Refuses Status.Sheet (sheet_text kind.now name.now) result }
{
    match format!(in alloc; "refused Sheet {kind} {name}\n") {
        Ok(line) => Refusal::Line(Status::Sheet, line),
        Err(_) => Refusal::Memory,
    }
}

/// The refusal of a datasheet.
fn sheet_refusal(alloc: Global, error: &SheetErr) -> Refusal
    ensures memory { error.now ≡ SheetErr.Memory → result ≡ Refusal.Memory }
    ensures line { Refuses Status.Sheet (sheet_line error.now) result }
{
    match error {
        SheetErr::Utf8 => sheet_refusal_at(alloc, "Utf8", "-"),
        SheetErr::Toml => sheet_refusal_at(alloc, "Toml", "-"),
        SheetErr::Key { name } => sheet_refusal_at(alloc, "Key", name.as_str()),
        SheetErr::Kind { name } => sheet_refusal_at(alloc, "Kind", name.as_str()),
        SheetErr::Core => sheet_refusal_at(alloc, "Core", "core"),
        SheetErr::Window { op } => sheet_refusal_at(alloc, "Window", op.as_str()),
        SheetErr::Number { name } => sheet_refusal_at(alloc, "Number", name.as_str()),
        SheetErr::Memory => Refusal::Memory,
    }
}

fn judge_image(alloc: Global, bytes: &[u8]) -> Result<Value, Refusal>
    requires { length bytes.now ≤ most_bytes }
    ensures { Judged image_kind bytes.now result }
{
    match read_image(alloc, bytes) {
        Err(TextErr::At(number)) => { Err(numbered_refusal(alloc, Status::Image, "Image", number)) }
        Err(TextErr::Memory) => Err(Refusal::Memory),
        Ok(image) => Ok(Value::Image(image)),
    }
}

fn judge_report(alloc: Global, bytes: &[u8]) -> Result<Value, Refusal>
    requires { length bytes.now ≤ most_bytes }
    ensures { Judged report_kind bytes.now result }
{
    match certify(alloc, bytes) {
        Ok(()) => Ok(Value::Report),
        Err(error) => Err(report_refusal(alloc, error)),
    }
}

fn judge_extension(alloc: Global, bytes: &[u8]) -> Result<Value, Refusal>
    requires { length bytes.now ≤ most_bytes }
    ensures { Judged extension_kind bytes.now result }
{
    match elaborate(alloc, bytes) {
        Ok(extension) => Ok(Value::Extension(extension)),
        Err(error) => Err(extension_refusal(alloc, &error)),
    }
}

fn judge_waits(alloc: Global, bytes: &[u8]) -> Result<Value, Refusal>
    ensures { Judged waits_kind bytes.now result }
{
    match read_waits(alloc, bytes) {
        Ok(waits) => Ok(Value::Waits(waits)),
        Err(TextErr::At(number)) => { Err(numbered_refusal(alloc, Status::Waits, "Waits", number)) }
        Err(TextErr::Memory) => Err(Refusal::Memory),
    }
}

fn judge_lines(alloc: Global, bytes: &[u8]) -> Result<Value, Refusal>
    ensures { Judged lines_kind bytes.now result }
{
    match read_lines(alloc, bytes) {
        Ok(lines) => Ok(Value::Lines(lines)),
        Err(TextErr::At(number)) => { Err(numbered_refusal(alloc, Status::Lines, "Lines", number)) }
        Err(TextErr::Memory) => Err(Refusal::Memory),
    }
}

fn judge_sheet(alloc: Global, bytes: &[u8]) -> Result<Value, Refusal>
    ensures { Judged sheet_kind bytes.now result }
{
    match read_sheet(alloc, bytes) {
        Ok(sheet) => Ok(Value::Sheet(sheet)),
        Err(error) => Err(sheet_refusal(alloc, &error)),
    }
}

/// A source is read as its bytes; whether it has words depends on the extension.
fn judge_source(alloc: Global, bytes: &[u8]) -> Result<Value, Refusal>
    ensures { Judged source_kind bytes.now result }
{
    match List::from_slice(alloc, bytes) {
        Ok(list) => Ok(Value::Source(list)),
        Err(_) => Err(Refusal::Memory),
    }
}

/// A trace is read as its bytes; whether it is that of a lawful run depends on the files before it.
fn judge_trace(alloc: Global, bytes: &[u8]) -> Result<Value, Refusal>
    ensures { Judged trace_kind bytes.now result }
{
    match List::from_slice(alloc, bytes) {
        Ok(list) => Ok(Value::Trace(list)),
        Err(_) => Err(Refusal::Memory),
    }
}

/// What the text of a file is read as, or its refusal.
fn judge(alloc: Global, kind: FileKind, bytes: &[u8]) -> Result<Value, Refusal>
    requires { length bytes.now ≤ most_bytes }
    ensures { Judged kind bytes.now result }
{
    match kind {
        FileKind::Image => judge_image(alloc, bytes),
        FileKind::Report => judge_report(alloc, bytes),
        FileKind::Extension => judge_extension(alloc, bytes),
        FileKind::Sheet => judge_sheet(alloc, bytes),
        FileKind::Source => judge_source(alloc, bytes),
        FileKind::Waits => judge_waits(alloc, bytes),
        FileKind::Lines => judge_lines(alloc, bytes),
        FileKind::Trace => judge_trace(alloc, bytes),
    }
}

/// Reads a file whole and judges it.
fn read_file<F: Shelf>(
    alloc: Global,
    kind: FileKind,
    name: &str,
    shelf: &mut F,
) -> Result<Value, Refusal>
    ensures read { WordRead (F.files shelf.old) (RoseIn (F.faults shelf.old) (F.faults shelf.new)) (Slot.File kind) name.now result }
    ensures kept { F.files shelf.new ≡ F.files shelf.old }
    ensures none_fell { NoneFell (F.faults shelf.old) (F.faults shelf.new) }
{
    match read_all(alloc, shelf, name) {
        Ok(file) => judge(alloc, kind, file.as_slice()),
        Err(ReadErr::Fault) => Err(file_refusal(alloc, Status::ReadFault, "ReadFault", name)),
        Err(ReadErr::TooLong) => Err(file_refusal(alloc, Status::TooLong, "TooLong", name)),
        Err(ReadErr::Memory) => Err(Refusal::Memory),
    }
}

/// What one word stands for.
fn read_word<F: Shelf>(
    alloc: Global,
    slot: Slot,
    word: &str,
    shelf: &mut F,
) -> Result<Value, Refusal>
    requires { fits_slot slot word.now ≡ true }
    ensures read { WordRead (F.files shelf.old) (RoseIn (F.faults shelf.old) (F.faults shelf.new)) slot word.now result }
    ensures kept { F.files shelf.new ≡ F.files shelf.old }
    ensures none_fell { NoneFell (F.faults shelf.old) (F.faults shelf.new) }
{
    match slot {
        Slot::Number(most) => Ok(Value::Number(number_within(most, word).unwrap())),
        Slot::File(kind) => read_file(alloc, kind, word, shelf),
    }
}

/// What the words stand for, in order: each file is read whole and judged before the next one is read.
pub fn read_words<F: Shelf>(
    alloc: Global,
    slots: &[Slot],
    words: &[String],
    shelf: &mut F,
) -> Result<Vec<Value>, Refusal>
    requires { fits_slots slots.now (bytes_of words.now) ≡ true }
    ensures read { IfOk result (λ values. AreRead (F.files shelf.old) slots.now (bytes_of words.now) (map reading_of values.items)) }
    ensures refused { IfErr result (WordsRefused (F.files shelf.old) (RoseIn (F.faults shelf.old) (F.faults shelf.new)) slots.now (bytes_of words.now)) }
{
    let mut values = Vec::new(alloc);
    for (at, slot) in slots.iter().enumerate() {
        prove!(at < words.len());
        match read_word(alloc, *slot, words[at].as_str(), shelf) {
            Ok(value) => {
                if values.push(value).is_err() {
                    return Err(Refusal::Memory);
                }
            }
            Err(refusal) => return Err(refusal),
        }
    }
    Ok(values)
}
