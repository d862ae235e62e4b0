ghost use Rattle.std.specs.Prelude.{◌≡◌, ◌≢◌, ℕ, ◌+◌, ◌^◌, ◌<◌, ◌≤◌, ◌⊎◌, length, IfOk, IfErr, MatchOption, Ok, Err};
ghost use Rattle.ix_cert.specs.declared.report.CertErr.TheVariants as err;
ghost use Rattle.ix_cert.specs.declared.report.Report.{Report as ReportValue};
ghost use Rattle.ix_cert.specs.Items.{IsItem, item_line};
ghost use Rattle.ix_lines.specs.Readings.{IsReading, texts};
ghost use Rattle.ix_cert.specs.Layout.{lines_of, first_line, is_refusal, without_last_empty as specified_without_last_empty, behind_refusal as specified_behind_refusal, report_lines, IsInForm, IsReportText, IsBadLine};
ghost use Rattle.ix_cert.specs.Refusals.{IsNext, NoNext, TellsLine, bytes_in, report_of};
ghost use Rattle.ix_cert.specs.Steps.{MayFollow, after as specified_after};
ghost use Rattle.ix_cert.specs.declared.state.Place.TheVariants as at;

use crate::item::Item;
use crate::lines::item_of;
use crate::report::{CertErr, Report};
use crate::state::{Place, Reading, after, may_follow};
use ix_bits::{List, Memory};
use ix_lines::parts;
use std::alloc::Global;

/// What a line says, if it is a line of a report.
fn item_of_line(alloc: Global, line: &[u8]) -> Result<Option<Item>, Memory>
    ensures { IfOk result (λ found. IsReading IsItem item_line line.now found) }
{
    let Ok(words) = parts(alloc, line, b' ') else {
        return Err(Memory);
    };
    item_of(alloc, words.as_slice())
}

/// What was read with this line, if it may stand next.
fn next(alloc: Global, reading: Reading, line: &[u8]) -> Result<Option<Reading>, Memory>
    ensures { IfOk result (λ found. MatchOption found (NoNext reading line.now) (λ more. IsNext reading line.now more)) }
{
    let Ok(found) = item_of_line(alloc, line) else {
        drop(reading);
        return Err(Memory);
    };
    match found {
        Some(item) => with_item(alloc, reading, item),
        None => {
            drop(reading);
            Ok(None)
        }
    }
}

fn with_item(alloc: Global, reading: Reading, item: Item) -> Result<Option<Reading>, Memory>
    requires { IsItem item }
    ensures { IfOk result (λ found. MatchOption found (MayFollow reading.version reading.place item → ⊥) (λ more. MayFollow reading.version reading.place item × (more ≡ specified_after reading item))) }
{
    if !may_follow(reading.version, &reading.place, &item) {
        drop(reading);
        drop(item);
        return Ok(None);
    }
    match after(alloc, reading, item) {
        Ok(more) => Ok(Some(more)),
        Err(error) => Err(error),
    }
}

/// The report, where its last behaviour has ended.
fn ended(reading: Reading) -> Option<Report>
    ensures { MatchOption result (reading.place ≢ at.Between) (λ report. (reading.place ≡ at.Between) × (report ≡ report_of reading)) }
{
    let Reading {
        version,
        period,
        blocks,
        place,
    } = reading;
    match place {
        Place::Between => Some(Report {
            version,
            period,
            blocks,
        }),
        other => {
            drop(other);
            drop(blocks);
            None
        }
    }
}

fn without_last_empty<'a, 'b>(lines: &'a [&'b [u8]]) -> &'a [&'b [u8]]
    ensures { texts result.now ≡ specified_without_last_empty (texts lines.now) }
{
    match lines {
        [front @ .., last] => { if last.is_empty() { front } else { lines } }
        [] => lines,
    }
}

fn is_refused(line: &[u8]) -> bool
    ensures { result ≡ is_refusal line.now }
{
    line.starts_with(b"refused ")
}

/// The lines of the report, and the number of the first, from 1: one that starts with `refused ` may stand before.
fn behind_refusal<'a, 'b>(lines: &'a [&'b [u8]]) -> (&'a [&'b [u8]], u32)
    ensures behind { texts result.0.now ≡ specified_behind_refusal (texts lines.now) }
    ensures first { result.1 ≡ first_line (texts lines.now) }
{
    match lines {
        [first, rest @ ..] => {
            if is_refused(*first) {
                (rest, 2)
            } else {
                (lines, 1)
            }
        }
        [] => (lines, 1),
    }
}

/// Reads the lines of a report, of which the first has the given number.
fn read_lines(alloc: Global, lines: &[&[u8]], first: u32) -> Result<Report, CertErr>
    requires first { first ≤ 2 }
    requires fits { bytes_in (texts lines.now) ≤ 2 ^ 32 }
    ensures form { IfOk result (λ report. IsInForm report) }
    ensures read { IfOk result (λ report. report_lines report ≡ texts lines.now) }
    ensures refused { IfErr result (TellsLine (texts lines.now) first) }
{
    let mut reading = Reading {
        version: 0,
        period: 0,
        blocks: List::new(alloc),
        place: Place::Title,
    };
    for (i, line) in lines.iter().enumerate() {
        match next(alloc, reading, *line) {
            Ok(Some(more)) => reading = more,
            Ok(None) => return Err(CertErr::Line {
                line: first + i as u32,
            }),
            Err(_) => return Err(CertErr::Memory),
        }
    }
    match ended(reading) {
        Some(report) => Ok(report),
        None => Err(CertErr::Line {
            line: first + lines.len() as u32,
        }),
    }
}

/// Reads a report, and tells the number, from 1, of its first line.
pub(crate) fn read_text(alloc: Global, bytes: &[u8]) -> Result<(Report, u32), CertErr>
    requires { length bytes.now < 2 ^ 32 }
    ensures read { IfOk result (λ x. IsReportText bytes.now x.0) }
    ensures first { IfOk result (λ x. x.1 ≡ first_line (lines_of bytes.now)) }
    ensures only { (report : ReportValue) → IsReportText bytes.now report → (result ≡ Ok (report, first_line (lines_of bytes.now))) ⊎ (result ≡ Err err.Memory) }
    ensures refused { IfErr result (λ e. e ≢ err.Memory → (n : ℕ) × (e ≡ err.Line n) × IsBadLine bytes.now n) }
    ensures refuses { (n : ℕ) → IsBadLine bytes.now n → (result ≡ Err (err.Line n)) ⊎ (result ≡ Err err.Memory) }
{
    let Ok(lines) = parts(alloc, bytes, b'\n') else {
        return Err(CertErr::Memory);
    };
    let (lines, first) = behind_refusal(without_last_empty(lines.as_slice()));
    match read_lines(alloc, lines, first) {
        Ok(report) => Ok((report, first)),
        Err(error) => Err(error),
    }
}

/// Reads the text of a report (this project's choice), of fewer than 2^32 bytes. One line that starts with `refused `
/// may stand first. A text that is no report is refused with `Line`, at the first line that may not stand in its place
/// or that is missing; no other error comes but `Memory`.
pub fn read_report(alloc: Global, bytes: &[u8]) -> Result<Report, CertErr>
    requires { length bytes.now < 2 ^ 32 }
    ensures read { IfOk result (λ report. IsReportText bytes.now report) }
    ensures only { (report : ReportValue) → IsReportText bytes.now report → (result ≡ Ok report) ⊎ (result ≡ Err err.Memory) }
    ensures refused { IfErr result (λ e. e ≢ err.Memory → (n : ℕ) × (e ≡ err.Line n) × IsBadLine bytes.now n) }
    ensures refuses { (n : ℕ) → IsBadLine bytes.now n → (result ≡ Err (err.Line n)) ⊎ (result ≡ Err err.Memory) }
{
    match read_text(alloc, bytes) {
        Ok((report, _)) => Ok(report),
        Err(error) => Err(error),
    }
}
