//! What becomes of datasheets, problems, reports and extensions. A case is a word, a line feed
//! and a text, and a byte 30 ends it. The word says what is asked of the text:
//!
//! - `datasheet`: a line of what it says, or its refusal. The answers come from the datasheet's
//!   description;
//! - `problems`: for each line, which is a problem, a line of the cost and the times of its
//!   schedule, or `cycle`. The costs and the least times were enumerated in another language;
//! - `weighted`: the same, where operations have weights; `paths`: the cost and the count of
//!   augmentations;
//! - `report`: whether it prints to the same text, or the line that is refused. The answers come
//!   from the format's description, for weights from an implementation in another language;
//! - `certificate`: `yes`, or the line of the report that is refused and why. The answers were
//!   worked out by hand, for weights by that implementation;
//! - `schedule`: the report of an extension's behaviours on the core of a datasheet, or the
//!   refusal, and a byte 30. The answers come from an implementation in another language, written
//!   from the rules.
#![tactic(auto)]

mod certificate;
mod datasheet;
mod problems;
mod report;
mod schedule;

use problems::Asked;
use std::alloc::{AllocError, Global};
use std::io;
use std::io::Read;

/// The byte behind each case.
const END: u8 = 30;

/// Past the greatest count of bytes that a text may have.
const TOO_MANY: usize = 0x1_0000_0000;

/// Puts the answer to what a word asks of a text.
fn put_answer(out: &mut String, alloc: Global, word: &[u8], text: &[u8]) -> Result<(), AllocError> {
    if text.len() >= TOO_MANY {
        return out.push_str("too long\n");
    }
    match word {
        b"datasheet" => datasheet::put_answer(out, alloc, text),
        b"problems" => problems::put_answer(out, alloc, Asked::Times, text),
        b"weighted" => problems::put_answer(out, alloc, Asked::WeightedTimes, text),
        b"paths" => problems::put_answer(out, alloc, Asked::Paths, text),
        b"report" => report::put_answer(out, alloc, text),
        b"certificate" => certificate::put_answer(out, alloc, text),
        b"schedule" => schedule::put_answer(out, alloc, text),
        _ => out.push_str("unknown word\n"),
    }
}

fn main(rt: HostRuntime) -> io::Result<()> {
    let mut bytes = Vec::new(rt.alloc());
    rt.reader().read_to_end(&mut bytes)?;
    for case in bytes.as_slice().split_inclusive(|byte| *byte == END) {
        let case = case.strip_suffix(&[END]).unwrap_or(case);
        let mut parts = case.splitn(2, |byte| *byte == b'\n');
        let word = parts.next().unwrap_or(&[]);
        let text = parts.next().unwrap_or(&[]);
        let mut answer = String::new(rt.alloc());
        put_answer(&mut answer, rt.alloc(), word, text)?;
        print!(rt; "{answer}")?;
    }
    Ok(())
}
