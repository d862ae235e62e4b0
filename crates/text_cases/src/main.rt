//! What becomes of CoreDSL texts. A case is a word, a line feed and a text, and a byte 30 ends
//! it. The word says what is asked of the text:
//!
//! - `tokens`: a line of its tokens with their places, or why it has none. The answers were
//!   worked out by hand (`tools/token_cases.py`);
//! - `tree`: a line of its tree, or why it has none. The answers come from a parser in another
//!   language, written from the grammar;
//! - `unrolled`: a line of its tree without loops and the places in it, or the rule of loops that
//!   is broken. The answers come from `tools/unroll_cases.py`, a parser and an unrolling in
//!   another language;
//! - `typed`: `typed`, or the first refusal and its place. The answers come from a checker in
//!   another language, written from the language's rules;
//! - `listing`: the lines of its extension's listing, or why it has none. The answers come from
//!   an elaborator in another language, written from the language's rules.
#![tactic(auto)]

mod listing;
mod refusals;
mod tokens;
mod tree;
mod tree_text;
mod typed;
mod unrolled;

use std::alloc::{AllocError, Global};
use std::io;
use std::io::Read;

/// The byte behind each case.
const END: u8 = 30;

/// Past the greatest count of bytes that a text may have.
const TOO_MANY: usize = 0x1_0000_0000;

/// Puts the answer to what a word asks of a text.
fn put_answer(out: &mut String, alloc: Global, word: &[u8], text: &[u8]) -> Result<(), AllocError> {
    if text.len() >= TOO_MANY {
        return out.push_str("too long\n");
    }
    match word {
        b"tokens" => tokens::put_answer(out, alloc, text)?,
        b"tree" => tree::put_answer(out, alloc, text)?,
        b"unrolled" => unrolled::put_answer(out, alloc, text)?,
        b"typed" => typed::put_answer(out, alloc, text)?,
        b"listing" => return listing::put_answer(out, alloc, text),
        _ => out.push_str("unknown word")?,
    }
    out.push_str("\n")
}

fn main(rt: HostRuntime) -> io::Result<()> {
    let mut bytes = Vec::new(rt.alloc());
    rt.reader().read_to_end(&mut bytes)?;
    for case in bytes.as_slice().split_inclusive(|byte| *byte == END) {
        let case = case.strip_suffix(&[END]).unwrap_or(case);
        let mut parts = case.splitn(2, |byte| *byte == b'\n');
        let word = parts.next().unwrap_or(&[]);
        let text = parts.next().unwrap_or(&[]);
        let mut answer = String::new(rt.alloc());
        put_answer(&mut answer, rt.alloc(), word, text)?;
        print!(rt; "{answer}")?;
    }
    Ok(())
}
