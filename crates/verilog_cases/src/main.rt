//! Prints nets as Verilog, reads Verilog texts and steps their nets. Standard input has cases, each
//! ended by a byte 30. A case is a word, a space or a line feed, and what the word asks about:
//!
//! - `print NET`: the text of a net. `sum` is a module with a register, `wide 1` and `wide 128`
//!   have each right side at that width.
//! - `chain COUNT`: the length of the text of a chain of so many cells.
//! - `read`: a line with the count of the nets of a text, and whether they are printed as this
//!   text, or with why it is refused.
//! - `prefixes`: the count of the proper prefixes of a text that are refused.
//! - `words`: a line for each word of a text with its place, and `--` behind them.
//! - `step CYCLES`: the modules of a text, which stands behind a space or a line feed, stepped on
//!   inputs that look random, from registers that are 0. Of each module the answer has
//!   `module NAME` and a line for each cycle, with each input and then each output as
//!   ` NAME=VALUE`, the value in hexadecimal digits.
//! - `build`: the text of the modules of an extension, or the refusal, and a byte 30. Behind the
//!   word stand the text of the extension, a byte 31 and a datasheet. The modules are read again,
//!   and `ports differ` stands behind them where the ports of one are not those of the net of the
//!   extension's design.
//! - `follow`: the modules of a text, stepped with the inputs that a dump of their ports shows, which
//!   stands behind a byte 31: a line with the name of each module and the count of rows, behind a
//!   line for each output of a row that has another value than in the dump.
#![tactic(auto)]

mod built;
mod followed;
mod modules;
mod nets;
mod printed;
mod stepped;
mod words;

use built::put_built;
use followed::put_followed;
use modules::{put_prefixes, put_read};
use printed::{put_chain, put_printed};
use std::alloc::{AllocError, Global};
use std::io;
use std::io::Read;
use stepped::put_stepped;
use words::put_words;

/// The byte behind each case.
const END: u8 = 30;

/// The first word of a text, and what stands behind the space or line feed that ends it.
fn parted(text: &[u8]) -> (&str, &[u8]) {
    let word = text
        .split(|byte| *byte == b' ' || *byte == b'\n')
        .next()
        .unwrap_or(&[]);
    let rest = text.get(word.len() + 1..).unwrap_or(&[]);
    (str::from_utf8(word).unwrap_or(""), rest)
}

/// Puts the answer to a case.
fn put_answer(out: &mut String, alloc: Global, case: &[u8]) -> Result<(), AllocError> {
    let (word, rest) = parted(case);
    match word {
        "print" => put_printed(out, alloc, rest),
        "chain" => put_chain(out, alloc, rest),
        "read" => put_read(out, alloc, rest),
        "prefixes" => put_prefixes(out, alloc, rest),
        "words" => put_words(out, alloc, rest),
        "step" => put_stepped(out, alloc, rest),
        "build" => put_built(out, alloc, rest),
        "follow" => put_followed(out, alloc, rest),
        _ => out.push_str("unknown word\n"),
    }
}

fn main(rt: HostRuntime) -> io::Result<()> {
    let mut bytes = Vec::new(rt.alloc());
    rt.reader().read_to_end(&mut bytes)?;
    for case in bytes.as_slice().split_inclusive(|byte| *byte == END) {
        let case = case.strip_suffix(&[END]).unwrap_or(case);
        let mut answer = String::new(rt.alloc());
        put_answer(&mut answer, rt.alloc(), case)?;
        print!(rt; "{answer}")?;
    }
    Ok(())
}
