use ix_behaviour::Which;
use std::str::SplitWhitespace;

/// The state before a behaviour, with the bytes of memory from one address on.
#[derive(Clone, Copy)]
pub struct Case {
    pub which: Which,
    pub word: u32,
    pub rs1: u32,
    pub rs2: u32,
    pub pc: u32,
    pub custom: [u128; 16],
    pub at: u32,
    pub bytes: u32,
}

fn next_number(words: &mut SplitWhitespace<'_>) -> Option<u32> {
    match words.next()?.parse::<u32>() {
        Ok(number) => Some(number),
        Err(_) => None,
    }
}

fn next_pattern(words: &mut SplitWhitespace<'_>) -> Option<u128> {
    match words.next()?.parse::<u128>() {
        Ok(number) => Some(number),
        Err(_) => None,
    }
}

fn next_which(words: &mut SplitWhitespace<'_>) -> Option<Which> {
    let kind = words.next()?;
    let number = next_number(words)?;
    if number > 255 {
        return None;
    }
    match kind {
        "instruction" => Some(Which::Instruction(number as u8)),
        "block" => Some(Which::Block(number as u8)),
        _ => None,
    }
}

// The patterns of so many custom registers.
fn patterns(words: &mut SplitWhitespace<'_>, count: usize) -> Option<[u128; 16]> {
    let mut all = [0; 16];
    for number in 0..16usize {
        if number < count {
            all[number] = next_pattern(words)?;
        }
    }
    Some(all)
}

/// The case of a line, for so many custom registers; `None` where the line is no case.
pub fn case_of(line: &str, registers: usize) -> Option<Case> {
    let mut words = line.split_whitespace();
    let which = next_which(&mut words)?;
    let word = next_number(&mut words)?;
    let rs1 = next_number(&mut words)?;
    let rs2 = next_number(&mut words)?;
    let pc = next_number(&mut words)?;
    let custom = patterns(&mut words, registers)?;
    let at = next_number(&mut words).unwrap_or(0);
    let bytes = next_number(&mut words).unwrap_or(0);
    Some(Case {
        which,
        word,
        rs1,
        rs2,
        pc,
        custom,
        at,
        bytes,
    })
}
