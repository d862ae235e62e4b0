//! Benchmarks of the libraries. The first word of the command line says which one runs:
//!
//! - `assemble`: a large source is assembled;
//! - `evaluate COUNT`: the effects of two behaviours are computed so many times. With the word
//!   `timed` behind it the nanoseconds of one evaluation are printed too;
//! - `settle CELLS CYCLES`: a net of so many cells is settled so many times;
//! - `all COUNT CELLS CYCLES`: all of them, one after another.
//!
//! The standard input has the lines of a source, the text of an extension with a square root and
//! that of one with a dot product, each ended by a byte 30.
#![tactic(auto)]

mod assemble;
mod evaluate;
mod hand;
mod settle;

use std::io::Read;
use std::{env, io};

/// The byte behind each text.
const END: u8 = 30;

/// The word at a place of the command line, where the program's name is at 0.
fn word(words: &[String], place: usize) -> &str {
    match words.get(place) {
        Some(word) => word.as_str(),
        None => "",
    }
}

/// The number at a place of the command line; 0 where none is.
fn number(words: &[String], place: usize) -> u32 {
    word(words, place).parse::<u32>().unwrap_or(0)
}

fn main(rt: HostRuntime) -> io::Result<()> {
    let words: Vec<String> = env::args(&rt)?.collect(rt.alloc())?;
    let words = words.as_slice();
    let mut bytes = Vec::new(rt.alloc());
    rt.reader().read_to_end(&mut bytes)?;
    let mut texts = bytes.as_slice().split(|byte| *byte == END);
    let source = texts.next().unwrap_or(&[]);
    let root = texts.next().unwrap_or(&[]);
    let product = texts.next().unwrap_or(&[]);
    match word(words, 1) {
        "assemble" => assemble::run(&rt, rt.alloc(), source),
        "evaluate" => {
            let timed = word(words, 3) == "timed";
            evaluate::run(&rt, rt.alloc(), root, product, number(words, 2), timed)
        }
        "settle" => settle::run(&rt, rt.alloc(), number(words, 2), number(words, 3)),
        "all" => {
            assemble::run(&rt, rt.alloc(), source)?;
            evaluate::run(&rt, rt.alloc(), root, product, number(words, 2), false)?;
            settle::run(&rt, rt.alloc(), number(words, 3), number(words, 4))
        }
        _ => println!(rt; "unknown word"),
    }
}
