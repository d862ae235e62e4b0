use crate::given::Why;
use std::alloc::AllocError;

/// What a behaviour reads of memory and writes: addresses with counts of bytes, and patterns.
#[derive(Clone, Copy)]
pub struct Done {
    pub rd: Option<u128>,
    pub pc: Option<u128>,
    pub custom: [Option<u128>; 16],
    pub load: Option<(u128, u8)>,
    pub store: Option<(u128, u8, u128)>,
}

fn put_word(line: &mut String, name: &str, word: Option<u128>) -> Result<(), AllocError> {
    match word {
        None => Ok(()),
        Some(word) => write!(line, "{name}={word:08x} "),
    }
}

fn put_access(line: &mut String, name: &str, at: u128, bytes: u8) -> Result<(), AllocError> {
    write!(line, "{name}={at:08x}/{bytes} ")
}

fn put_custom(line: &mut String, custom: &[Option<u128>; 16]) -> Result<(), AllocError> {
    for number in 0..16usize {
        if let Some(raw) = custom[number] {
            write!(line, "c{number}={raw:x} ")?;
        }
    }
    Ok(())
}

fn put_all(line: &mut String, done: &Done) -> Result<(), AllocError> {
    put_word(line, "rd", done.rd)?;
    put_word(line, "pc", done.pc)?;
    put_custom(line, &done.custom)?;
    if let Some((at, bytes)) = done.load {
        put_access(line, "load", at, bytes)?;
    }
    if let Some((at, bytes, value)) = done.store {
        put_access(line, "store", at, bytes)?;
        put_word(line, "value", Some(value))?;
    }
    line.push_str("\n")
}

/// Puts the line of what was done, or of why there is no answer.
pub fn put_done(out: &mut String, done: Result<Done, Why>) -> Result<(), AllocError> {
    match done {
        Ok(done) => put_all(out, &done),
        Err(why) => write!(out, "{why:?}\n"),
    }
}
