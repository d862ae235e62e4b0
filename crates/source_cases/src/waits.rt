use rv_asm::{TextErr, Waits, read_waits};
use std::alloc::{AllocError, Global};

/// The sum of all waits.
fn sum(waits: &Waits) -> u32 {
    let mut sum = 0u32;
    for access in 0..waits.len() {
        sum = sum.wrapping_add(u32::from(waits.wait(access)));
    }
    sum
}

/// Puts the line of waits: their count, their sum and the last one.
fn put_waits(out: &mut String, waits: &Waits) -> Result<(), AllocError> {
    let count = waits.len();
    let last = waits.wait(count.saturating_sub(1));
    let sum = sum(waits);
    writeln!(out, "{count} waits, {sum} in all, the last {last}")
}

/// Puts the line of a text of waits, or of its refusal.
pub(crate) fn put_answer(out: &mut String, alloc: Global, text: &[u8]) -> Result<(), AllocError> {
    match read_waits(alloc, text) {
        Ok(waits) => put_waits(out, &waits),
        Err(TextErr::At(number)) => writeln!(out, "refused Waits {number}"),
        Err(TextErr::Memory) => out.push_str("Memory\n"),
    }
}
