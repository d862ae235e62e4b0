ghost use Rattle.std.specs.Prelude.{◌<◌, ◌^◌, length};

use ix_cert::{CertErr, print_report, read_report};
use std::alloc::{AllocError, Global};

/// Whether the report in a text prints to that text; or the line that is refused, 0 for want of
/// memory.
fn is_printed(alloc: Global, text: &[u8]) -> Result<bool, u32>
    requires { length text.now < 2 ^ 32 }
{
    match read_report(alloc, text) {
        Ok(report) => match print_report(alloc, &report) {
            Ok(printed) => Ok(printed.as_slice() == text),
            Err(_) => Err(0),
        },
        Err(CertErr::Line { line }) => Err(line),
        Err(_) => Err(0),
    }
}

/// Puts the line `same` where the report in a text prints to the same text, `other` where it
/// prints to another, or `line N` with the line that is refused.
pub(crate) fn put_answer(out: &mut String, alloc: Global, text: &[u8]) -> Result<(), AllocError>
    requires { length text.now < 2 ^ 32 }
{
    match is_printed(alloc, text) {
        Ok(true) => out.push_str("same\n"),
        Ok(false) => out.push_str("other\n"),
        Err(line) => writeln!(out, "line {line}"),
    }
}
