//! Makes the nets of extensions and steps them. Standard input has cases, each ended by a byte 30,
//! as each answer is. A case is a word, a space or a line feed, and what the word asks about:
//!
//! - `generate`: the module of each behaviour of an extension, at the times of its chosen schedule,
//!   stepped. Behind the word stand the text of the extension, a byte 31, a datasheet, a byte 31,
//!   and what is put to the modules, which is one of:
//!   - `tokens COUNT SEED`: so many tokens with inputs that look random go through each module,
//!     with stalls that look random. Each output of a token's time is compared with the effect that
//!     the evaluator gives. A line has the module's name and the count of the tokens that went
//!     through.
//!   - a part for each module, parted by bytes 29, of lines: `life`, before which all registers are
//!     0, or of one cycle the values of all inputs in hexadecimal digits and a word with a sign for
//!     each output. A line has the module's name, its inputs, `->` and its outputs, a port as
//!     `NAME:WIDTH`, and one for each cycle the outputs whose sign is `*`, and `-` for the others.
//!
//! The answers to given cycles come from an implementation in another language
//! (`tools/netgen_cases.py`).
#![tactic(auto)]

mod due;
mod generated;
mod life;
mod module;
mod put;
mod token;

use generated::put_generated;
use std::alloc::{AllocError, Global};
use std::io;
use std::io::Read;

/// The byte behind each case, and behind each answer.
const END: u8 = 30;

/// The first word of a case, and what stands behind the space or line feed that ends it.
fn parted(case: &[u8]) -> (&str, &[u8]) {
    let word = case
        .split(|byte| *byte == b' ' || *byte == b'\n')
        .next()
        .unwrap_or(&[]);
    let rest = case.get(word.len() + 1..).unwrap_or(&[]);
    (str::from_utf8(word).unwrap_or(""), rest)
}

/// Puts the answer to a case.
fn put_answer(out: &mut String, alloc: Global, case: &[u8]) -> Result<(), AllocError> {
    let (word, rest) = parted(case);
    match word {
        "generate" => put_generated(out, alloc, rest)?,
        _ => out.push_str("unknown word\n")?,
    }
    out.push_str("\u{1e}")
}

fn main(rt: HostRuntime) -> io::Result<()> {
    let mut bytes = Vec::new(rt.alloc());
    rt.reader().read_to_end(&mut bytes)?;
    for case in bytes.as_slice().split_inclusive(|byte| *byte == END) {
        let case = case.strip_suffix(&[END]).unwrap_or(case);
        let mut answer = String::new(rt.alloc());
        put_answer(&mut answer, rt.alloc(), case)?;
        print!(rt; "{answer}")?;
    }
    Ok(())
}
