use crate::put_text;
use ix_elab::elaborate;
use rv_asm::{AsmErr, assemble, print_image};
use std::alloc::{AllocError, Global};

/// The byte between an extension and a source.
const MIDDLE: u8 = 31;

/// Past the greatest count of bytes that a text may have.
const TOO_MANY: usize = 0x8000_0000;

/// Puts the line of a refusal.
fn put_refusal(out: &mut String, error: AsmErr) -> Result<(), AllocError> {
    match error {
        AsmErr::Line { at } => writeln!(out, "refused Source Line {at}"),
        AsmErr::Label { at } => writeln!(out, "refused Source Label {at}"),
        AsmErr::Reach { at } => writeln!(out, "refused Source Reach {at}"),
        AsmErr::Size { at } => writeln!(out, "refused Source Size {at}"),
        AsmErr::Memory => out.push_str("Memory\n"),
    }
}

/// Puts the image of a source with an extension, or its refusal.
fn put_assembled(
    out: &mut String,
    alloc: Global,
    extension: &[u8],
    source: &[u8],
) -> Result<(), AllocError> {
    if extension.len() >= TOO_MANY || source.len() >= TOO_MANY {
        return out.push_str("too long\n");
    }
    let Ok(extension) = elaborate(alloc, extension) else {
        return out.push_str("no extension\n");
    };
    match assemble(alloc, &extension, source) {
        Ok(image) => match print_image(alloc, &image) {
            Ok(text) => put_text(out, text.as_slice()),
            Err(_) => out.push_str("Memory\n"),
        },
        Err(error) => put_refusal(out, error),
    }
}

/// Puts the text of a source's image, or `refused Source KIND LINE`, and a byte 30. The case is
/// the text of an extension, a byte 31 and the source.
pub(crate) fn put_answer(out: &mut String, alloc: Global, case: &[u8]) -> Result<(), AllocError> {
    let mut parts = case.splitn(2, |byte| *byte == MIDDLE);
    let extension = parts.next().unwrap_or(&[]);
    let source = parts.next().unwrap_or(&[]);
    put_assembled(out, alloc, extension, source)?;
    out.push_str("\u{1e}")
}
