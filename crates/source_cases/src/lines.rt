use rv_asm::{TextErr, read_lines};
use std::alloc::{AllocError, Global};

/// Puts the line of a text of the rows of an interrupt line, or of its refusal.
pub(crate) fn put_answer(out: &mut String, alloc: Global, text: &[u8]) -> Result<(), AllocError> {
    match read_lines(alloc, text) {
        Ok(lines) => {
            let count = lines.len();
            let next = lines.next();
            writeln!(out, "{count} rows, the next from {next} on")
        }
        Err(TextErr::At(number)) => writeln!(out, "refused Lines {number}"),
        Err(TextErr::Memory) => out.push_str("Memory\n"),
    }
}
