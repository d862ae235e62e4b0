use crate::put_text;
use ix_bits::List;
use ix_elab::elaborate;
use ix_io::MemSink;
use rv_asm::read_image;
use rv_text::write_run;
use std::alloc::{AllocError, Global};

/// The byte between the parts of a case.
const MIDDLE: u8 = 31;

/// Past the greatest count of bytes that a text may have.
const TOO_MANY: usize = 0x10_0000;

/// The number that decimal digits write.
fn number(digits: &[u8]) -> u32 {
    let mut number = 0u32;
    for digit in digits {
        number = number
            .wrapping_mul(10)
            .wrapping_add(u32::from(digit.wrapping_sub(b'0')));
    }
    number
}

/// Puts the text of a run of so many steps at most.
fn put_run(
    out: &mut String,
    alloc: Global,
    text: &[u8],
    image: &[u8],
    steps: u32,
) -> Result<(), AllocError> {
    if text.len() >= TOO_MANY || image.len() >= TOO_MANY {
        return out.push_str("too long\n");
    }
    let Ok(extension) = elaborate(alloc, text) else {
        return out.push_str("no extension\n");
    };
    let Ok(image) = read_image(alloc, image) else {
        return out.push_str("no image\n");
    };
    let Ok(mut sink) = MemSink::new(alloc, List::new(alloc), u32::MAX) else {
        return out.push_str("Memory\n");
    };
    if write_run(alloc, &extension, &image, steps, &mut sink).is_err() {
        return out.push_str("no run\n");
    }
    put_text(out, sink.bytes())
}

/// Puts the text of a run, and a byte 30. The case is the text of an extension, an image and a
/// count of steps, with a byte 31 between them. The text of the run has 1 MiB at most.
pub(crate) fn put_answer(out: &mut String, alloc: Global, case: &[u8]) -> Result<(), AllocError> {
    let mut parts = case.split(|byte| *byte == MIDDLE);
    let text = parts.next().unwrap_or(&[]);
    let image = parts.next().unwrap_or(&[]);
    let steps = number(parts.next().unwrap_or(&[]));
    put_run(out, alloc, text, image, steps)?;
    out.push_str("\u{1e}")
}
