//! What becomes of sources, texts of waits, of interrupt lines and images. A case is a word, a line
//! feed and a text, and a byte 30 ends it. The word says what is asked of the text:
//!
//! - `waits`: a line of the count of its waits, their sum and the last one, or its refusal. The
//!   answers come from a reader in another language, written from the rules;
//! - `lines`: a line of the count of its rows and the least that may follow, or its refusal. The
//!   refusals come from a reader in another language, written from the rules;
//! - `image`: the text of a source's image, or the line of its refusal, and a byte 30. The
//!   answers come from an assembler in another language, written from the language's rules;
//! - `run`: the text of the run of an image, one instruction at a time, and a byte 30. The
//!   answers come from an interpreter in another language, written from the rules.
#![tactic(auto)]

mod image;
mod lines;
mod run;
mod waits;

use std::alloc::{AllocError, Global};
use std::io;
use std::io::Read;

/// The byte behind each case.
const END: u8 = 30;

/// Puts a text of bytes.
pub(crate) fn put_text(out: &mut String, bytes: &[u8]) -> Result<(), AllocError> {
    match std::str::from_utf8(bytes) {
        Ok(text) => out.push_str(text),
        Err(_) => out.push_str("no text\n"),
    }
}

/// Puts the answer to what a word asks of a text.
fn put_answer(out: &mut String, alloc: Global, word: &[u8], text: &[u8]) -> Result<(), AllocError> {
    match word {
        b"waits" => waits::put_answer(out, alloc, text),
        b"lines" => lines::put_answer(out, alloc, text),
        b"image" => image::put_answer(out, alloc, text),
        b"run" => run::put_answer(out, alloc, text),
        _ => out.push_str("unknown word\n"),
    }
}

fn main(rt: HostRuntime) -> io::Result<()> {
    let mut bytes = Vec::new(rt.alloc());
    rt.reader().read_to_end(&mut bytes)?;
    for case in bytes.as_slice().split_inclusive(|byte| *byte == END) {
        let case = case.strip_suffix(&[END]).unwrap_or(case);
        let mut parts = case.splitn(2, |byte| *byte == b'\n');
        let word = parts.next().unwrap_or(&[]);
        let text = parts.next().unwrap_or(&[]);
        let mut answer = String::new(rt.alloc());
        put_answer(&mut answer, rt.alloc(), word, text)?;
        print!(rt; "{answer}")?;
    }
    Ok(())
}
