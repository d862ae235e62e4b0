//! Computes operators on numbers, and operations by the cells that are made of them. Standard input
//! has cases, each ended by a byte 30. A case is a word, a line feed and a table, and each line of
//! the table is answered by itself and its result:
//!
//! - `numbers`: operators. `Add u 5 17 s 4 7` is answered by ` = s 7 24` behind it. A type is `u`
//!   or `s` and a width, and a value is a pattern. Behind `Cast` the second type is the result's,
//!   behind `Range` stand the highest and the lowest bit.
//! - `cells`: the same lines, by cells, and `Mux` and `Rom`: behind the index of `Rom` stand the
//!   type and the patterns of the entries. Of each operation a module of its cells alone is made,
//!   judged and settled.
//!
//! The answers come from exact whole numbers.
#![tactic(auto)]

mod cells;
mod given;
mod numbers;
mod operations;
mod settled;

use cells::put_cells;
use numbers::put_numbers;
use std::alloc::{AllocError, Global};
use std::io;
use std::io::Read;

/// The byte behind each case.
const END: u8 = 30;

/// The first word of a case, and what stands behind the space or line feed that ends it.
fn parted(case: &[u8]) -> (&str, &[u8]) {
    let word = case
        .split(|byte| *byte == b' ' || *byte == b'\n')
        .next()
        .unwrap_or(&[]);
    let rest = case.get(word.len() + 1..).unwrap_or(&[]);
    (str::from_utf8(word).unwrap_or(""), rest)
}

/// Puts the answer to a case.
fn put_answer(out: &mut String, alloc: Global, case: &[u8]) -> Result<(), AllocError> {
    let (word, rest) = parted(case);
    let Ok(table) = str::from_utf8(rest) else {
        return out.push_str("no text\n");
    };
    match word {
        "numbers" => put_numbers(out, table),
        "cells" => put_cells(out, alloc, table),
        _ => out.push_str("unknown word\n"),
    }
}

fn main(rt: HostRuntime) -> io::Result<()> {
    let mut bytes = Vec::new(rt.alloc());
    rt.reader().read_to_end(&mut bytes)?;
    for case in bytes.as_slice().split_inclusive(|byte| *byte == END) {
        let case = case.strip_suffix(&[END]).unwrap_or(case);
        let mut answer = String::new(rt.alloc());
        put_answer(&mut answer, rt.alloc(), case)?;
        print!(rt; "{answer}")?;
    }
    Ok(())
}
