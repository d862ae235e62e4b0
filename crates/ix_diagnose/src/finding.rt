ghost use Rattle.std.specs.Prelude.{◌≡◌, ◌≢◌, ◌≤◌, ◌<◌, ℕ, List, Some, IsSomeAnd, decimal, length, slice_index};
ghost use Rattle.ix_diagnose.specs.Refusals.{IsWord, IsTold, before};
ghost use Rattle.ix_diagnose.specs.Findings.{IsLineOf, StandsIn, FindsPlace};

use crate::extension::extension_sentence;
use crate::look::{Look, misplaced};
use crate::place::{Place, line_end};
use crate::report::report_sentence;
use crate::search::{declaration, key_from, start_of_line, word_at};
use crate::sheet::sheet_sentence;
use crate::source::source_sentence;
use crate::text::{before_blanks, behind_blanks};
use crate::trace::trace_sentence;
use crate::words::{Refusal, Status, cut, number, span};

/// What is found of a refusal: the place, if one is told or found, what is wrong and what to write
/// in its place, and the names that are told.
#[derive(Clone, Copy)]
pub(crate) struct Finding<'a> {
    pub(crate) place: Option<Place>,
    pub(crate) sentence: &'static str,
    pub(crate) about: &'a str,
}

/// A finding at a place, or of the whole file.
fn at(place: Option<Place>, sentence: &'static str) -> Finding<'static>
    ensures { result.place ≡ place }
{
    Finding {
        place,
        sentence,
        about: "",
    }
}

/// The first byte of a line that is no blank, up to behind its last one.
fn content(bytes: &[u8], start: usize) -> Place
    requires { start ≤ length bytes.now }
    ensures behind { start ≤ result.from }
    ensures within { result.from ≤ length bytes.now }
    ensures inside { (k : ℕ) → start ≤ k → k < result.from → slice_index bytes.now k ≢ 10 }
{
    let end = line_end(bytes, start);
    Place {
        from: behind_blanks(bytes, start).min(end),
        to: before_blanks(bytes, end),
    }
}

/// The place of the line of that number; it is the end of the file where there are fewer lines.
fn numbered_place(bytes: &[u8], number: usize) -> Place
    requires { 1 ≤ number }
    ensures { IsLineOf bytes.now number → StandsIn bytes.now number result.from }
{
    match start_of_line(bytes, number) {
        Some(start) => content(bytes, start),
        None => Place {
            from: bytes.len(),
            to: bytes.len(),
        },
    }
}

/// The place of the line whose number a word writes.
fn line_place(bytes: &[u8], word: &str) -> Option<Place>
    ensures { (n : ℕ) → IsLineOf bytes.now n → word.now ≡ decimal n → IsSomeAnd result (λ p. StandsIn bytes.now n p.from) }
{
    match number(word) {
        None | Some(0) => None,
        Some(number) => Some(numbered_place(bytes, number)),
    }
}

/// What is wrong at a place of an extension, or with a file that is none.
fn placed_sentence(kind: &str, bytes: &[u8], place: Place) -> &'static str {
    let reads = matches!(kind, "BadByte" | "Unclosed" | "BadNumber" | "At");
    match misplaced(Look::Extension, bytes) {
        Some(sentence) if reads => sentence,
        _ => extension_sentence(kind, bytes, place),
    }
}

/// What is found of an extension by the names that are told.
fn named_finding<'a>(kind: &str, told: &'a str, bytes: &[u8]) -> Finding<'a> {
    let (name, _) = cut(told);
    Finding {
        place: declaration(bytes, name),
        sentence: extension_sentence(kind, bytes, Place { from: 0, to: 0 }),
        about: told,
    }
}

fn extension_finding<'a>(rest: &'a str, bytes: &[u8]) -> Finding<'a>
    ensures { (kind : List ℕ) (from : ℕ) (to : ℕ) → IsWord kind → IsTold from → IsTold to
        → rest.now ≡ before kind (before (decimal from) (decimal to)) → result.place ≡ Some (record { from = from; to = to }) }
{
    let (kind, told) = cut(rest);
    match span(told) {
        Some(place) => at(Some(place), placed_sentence(kind, bytes, place)),
        None => named_finding(kind, told, bytes),
    }
}

/// The place of a key of a datasheet; that of a window is looked for behind the header of windows.
fn key_place(bytes: &[u8], kind: &str, name: &str) -> Option<Place> {
    let from = match key_from(bytes, 0, "window") {
        Some(header) if kind == "Window" => header.to,
        _ => 0,
    };
    key_from(bytes, from, name)
}

fn sheet_finding<'a>(rest: &'a str, bytes: &[u8]) -> Finding<'a> {
    let (kind, name) = cut(rest);
    match misplaced(Look::Sheet, bytes) {
        Some(sentence) if kind == "Toml" => at(None, sentence),
        _ => Finding {
            place: key_place(bytes, kind, name),
            sentence: sheet_sentence(kind, name),
            about: if name == "-" { "" } else { name },
        },
    }
}

fn image_finding(rest: &str, bytes: &[u8]) -> Finding<'static>
    ensures { (n : ℕ) → IsLineOf bytes.now n → rest.now ≡ decimal n → IsSomeAnd result.place (λ p. StandsIn bytes.now n p.from) }
{
    let sentence = misplaced(Look::Image, bytes).unwrap_or(
        "this is no word of an image: write eight hexadecimal digits a line, on at most 65536 lines; `asm` writes them for a source",
    );
    at(line_place(bytes, rest), sentence)
}

fn source_finding(rest: &str, bytes: &[u8]) -> Finding<'static>
    ensures { (kind : List ℕ) (n : ℕ) → IsWord kind → IsLineOf bytes.now n → rest.now ≡ before kind (decimal n)
        → IsSomeAnd result.place (λ p. StandsIn bytes.now n p.from) }
{
    let (kind, told) = cut(rest);
    let place = line_place(bytes, told);
    let line = place.unwrap_or(Place { from: 0, to: 0 });
    let sentence = misplaced(Look::Other, bytes).unwrap_or(source_sentence(kind, bytes, line));
    at(place, sentence)
}

fn report_finding(rest: &str, bytes: &[u8]) -> Finding<'static>
    ensures { (kind : List ℕ) (n : ℕ) → IsLineOf bytes.now n → rest.now ≡ before (decimal n) kind
        → IsSomeAnd result.place (λ p. StandsIn bytes.now n p.from) }
{
    let (told, kind) = cut(rest);
    let sentence = misplaced(Look::Report, bytes).unwrap_or(report_sentence(kind));
    at(line_place(bytes, told), sentence)
}

fn trace_finding(rest: &str, bytes: &[u8]) -> Finding<'static>
    ensures { (kind : List ℕ) (n : ℕ) → IsLineOf bytes.now n → rest.now ≡ before (decimal n) kind
        → IsSomeAnd result.place (λ p. StandsIn bytes.now n p.from) }
{
    let (told, kind) = cut(rest);
    let place = line_place(bytes, told);
    let line = place.unwrap_or(Place { from: 0, to: 0 });
    let sentence = misplaced(Look::Other, bytes).unwrap_or(trace_sentence(kind, bytes, line));
    at(place, sentence)
}

/// What is found of a number in a list of numbers, which is wrong as the sentence says.
fn number_finding(rest: &str, bytes: &[u8], sentence: &'static str) -> Finding<'static> {
    let place = match number(rest) {
        Some(count) => word_at(bytes, count),
        None => None,
    };
    at(place, misplaced(Look::Other, bytes).unwrap_or(sentence))
}

fn waits_finding(rest: &str, bytes: &[u8]) -> Finding<'static> {
    number_finding(
        rest,
        bytes,
        "this is no wait: write numbers from 0 to 255 with one to three digits, blanks between them, and at most 65536 of them",
    )
}

fn lines_finding(rest: &str, bytes: &[u8]) -> Finding<'static> {
    number_finding(
        rest,
        bytes,
        "this is no row, or none behind the one before: write numbers from 0 to 199999 with one to six digits, each greater than the one before, blanks between them, and at most 4096 of them",
    )
}

fn schedule_finding<'a>(name: &'a str, bytes: &[u8]) -> Finding<'a> {
    Finding {
        place: declaration(bytes, name),
        sentence: "no schedule of this behaviour fits the datasheet: write a greater period, smaller delays or wider windows there, as the report's cycle demands",
        about: name,
    }
}

fn barrel_finding<'a>(name: &'a str, bytes: &[u8]) -> Finding<'a> {
    Finding {
        place: declaration(bytes, name),
        sentence: "the mode of this behaviour is Tight, so that it waits in the last stage, and where two harts take turns nothing can wait: write what takes long into a `spawn` body, or smaller delays or a greater period into the datasheet",
        about: name,
    }
}

/// What is found of a refusal, in the bytes of the file that is refused.
pub(crate) fn finding_of<'a>(refusal: Refusal<'a>, bytes: &[u8]) -> Finding<'a>
    ensures { FindsPlace refusal.entry.status refusal.entry.rest.now bytes.now result.place }
{
    match refusal.status {
        Status::Extension => extension_finding(refusal.rest, bytes),
        Status::Sheet => sheet_finding(refusal.rest, bytes),
        Status::Image => image_finding(refusal.rest, bytes),
        Status::Source => source_finding(refusal.rest, bytes),
        Status::Certificate => report_finding(refusal.rest, bytes),
        Status::Waits => waits_finding(refusal.rest, bytes),
        Status::Lines => lines_finding(refusal.rest, bytes),
        Status::Trace => trace_finding(refusal.rest, bytes),
        Status::NoSchedule => schedule_finding(refusal.rest, bytes),
        Status::Barrel => barrel_finding(refusal.rest, bytes),
        Status::ReadFault => at(
            None,
            "the file cannot be read: write the name of a file that is there and may be read",
        ),
        Status::TooLong => at(
            None,
            "the file has more than 1048576 bytes: write a shorter one",
        ),
        Status::Usage | Status::Other => at(
            None,
            "these words are not a command: write `run IMAGE CYCLES`, `run EXT SHEET IMAGE WAITS CYCLES`, `run EXT SHEET IMAGE WAITS LINES CYCLES`, `check EXT`, `certify REPORT`, `seq EXT IMAGE STEPS`, `asm EXT SOURCE`, `schedule EXT SHEET`, `build EXT SHEET`, `sweep EXT SHEET`, `bench EXT SHEET NUMBER COUNT`, `wave EXT SHEET IMAGE WAITS CYCLES`, `audit EXT SHEET IMAGE WAITS TRACE` or `barrel EXT SHEET IMAGEA IMAGEB CYCLES`, CYCLES and STEPS being numbers from 0 to 200000, NUMBER from 0 to 4294967295, and COUNT from 0 to 10000",
        ),
    }
}
