ghost use Rattle.std.specs.Prelude.{◌<◌, ◌^◌, length};

use ix_bits::List;
use ix_cert::certify;
use ix_elab::elaborate;
use ix_schedules::{TextErr, name_law, schedule_text};
use ix_sheet::read_sheet;
use std::alloc::{AllocError, Global};

/// The byte between an extension and a datasheet.
const MIDDLE: u8 = 31;

/// Past the greatest count of bytes that a report may have.
const TOO_MANY: usize = 0x1_0000_0000;

/// Puts the lines of a report but those that choose a certificate.
fn put_fixed(out: &mut String, report: &str) -> Result<(), AllocError> {
    for line in report.split_inclusive('\n') {
        if !line.starts_with("flow ") && !line.starts_with("cycle ") {
            out.push_str(line)?;
        }
    }
    Ok(())
}

/// Puts lines.
fn put_lines(out: &mut String, lines: &[u8]) -> Result<(), AllocError> {
    match std::str::from_utf8(lines) {
        Ok(lines) => put_fixed(out, lines),
        Err(_) => out.push_str("no text\n"),
    }
}

/// Puts a report, if its check finds no fault.
fn put_report(out: &mut String, alloc: Global, report: &List<u8>) -> Result<(), AllocError> {
    let report = report.as_slice();
    if report.len() >= TOO_MANY || certify(alloc, report).is_err() {
        out.push_str("not certified\n")
    } else {
        put_lines(out, report)
    }
}

/// Puts the schedule of an extension on the core of a datasheet, or its refusal.
fn put_scheduled(
    out: &mut String,
    alloc: Global,
    text: &[u8],
    sheet: &[u8],
) -> Result<(), AllocError>
    requires { length text.now < 2 ^ 32 }
{
    let Ok(extension) = elaborate(alloc, text) else {
        return out.push_str("no extension\n");
    };
    let Ok(sheet) = read_sheet(alloc, sheet) else {
        return out.push_str("no datasheet\n");
    };
    name_law();
    match schedule_text(alloc, &extension, &sheet) {
        Ok(report) => put_report(out, alloc, &report),
        Err(TextErr::NoSchedule(report)) => put_report(out, alloc, &report),
        Err(TextErr::TooManyOps(line)) => put_lines(out, line.as_slice()),
        Err(TextErr::Memory) => out.push_str("no memory\n"),
    }
}

/// Puts the report of an extension's behaviours, or the refusal, and a byte 30. The case is the
/// text of the extension, a byte 31 and a datasheet. The lines `flow` and `cycle` are left out,
/// since each choice of them that passes the check is as good. The report, or that after a
/// refusal, is checked first, and `not certified` stands in its place where its check finds a
/// fault.
pub(crate) fn put_answer(out: &mut String, alloc: Global, case: &[u8]) -> Result<(), AllocError> {
    let mut parts = case.splitn(2, |byte| *byte == MIDDLE);
    let text = parts.next().unwrap_or(&[]);
    let sheet = parts.next().unwrap_or(&[]);
    if text.len() >= TOO_MANY {
        return out.push_str("too long\n\u{1e}");
    }
    put_scheduled(out, alloc, text, sheet)?;
    out.push_str("\u{1e}")
}
