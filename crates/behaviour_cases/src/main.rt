//! Says what behaviours do, and prints their operation graphs. Standard input has cases, each
//! ended by a byte 30. A case is a word, a space or a line feed, and what the word asks about:
//!
//! - `effect`: what a behaviour does in a given state. Behind the word stand the text of an
//!   extension, a byte 31 and a line: the kind of the behaviour (`instruction` or `block`), its
//!   number, the instruction word, rs1, rs2, the program counter and the patterns of the custom
//!   registers, and then, where memory is read, the address with the bytes from there on; all
//!   numbers are decimal. The answer is a line of what is written and read,
//!   `rd=V pc=V cK=V load=AT/BYTES store=AT/BYTES value=V`, in hexadecimal, each only where it is.
//! - `value`: the same, computed through the operation graph of the behaviour.
//! - `graph`: the operation graphs of the behaviours of an extension, instructions first. Behind
//!   the word stands the text of the extension. A graph is `graph NAME`, a line for each operation
//!   and one for each table of the extension. An operation's line has its number, its kind with the
//!   numbers of the kind, its arguments, which are numbers of operations or constants as a type and
//!   a pattern (`u5:1f`), `-> TYPE`, and `spawned` where it is a write of a `spawn` body. A table's
//!   line has the patterns of its entries. A behaviour with more than 256 operations is
//!   `graph NAME TooManyOps`, a text that has no extension `refused`.
//!
//! The answers come from an evaluator, which makes no graphs, and from a maker of graphs, both
//! in another language and written from the rules of CoreDSL.
#![tactic(auto)]

mod compute;
mod done;
mod effects;
mod given;
mod graphs;
mod values;
mod walk;

use done::put_done;
use graphs::put_graphs;
use std::alloc::{AllocError, Global};
use std::io;
use std::io::Read;

/// The byte behind each case.
const END: u8 = 30;

/// The first word of a case, and what stands behind the space or line feed that ends it.
fn parted(case: &[u8]) -> (&str, &[u8]) {
    let word = case
        .split(|byte| *byte == b' ' || *byte == b'\n')
        .next()
        .unwrap_or(&[]);
    let rest = case.get(word.len() + 1..).unwrap_or(&[]);
    (str::from_utf8(word).unwrap_or(""), rest)
}

/// Puts the answer to a case.
fn put_answer(out: &mut String, alloc: Global, case: &[u8]) -> Result<(), AllocError> {
    let (word, rest) = parted(case);
    match word {
        "effect" => put_done(out, effects::done_in(alloc, rest)),
        "value" => put_done(out, values::done_in(alloc, rest)),
        "graph" => put_graphs(out, alloc, rest),
        _ => out.push_str("unknown word\n"),
    }
}

fn main(rt: HostRuntime) -> io::Result<()> {
    let mut bytes = Vec::new(rt.alloc());
    rt.reader().read_to_end(&mut bytes)?;
    for case in bytes.as_slice().split_inclusive(|byte| *byte == END) {
        let case = case.strip_suffix(&[END]).unwrap_or(case);
        let mut answer = String::new(rt.alloc());
        put_answer(&mut answer, rt.alloc(), case)?;
        print!(rt; "{answer}")?;
    }
    Ok(())
}
