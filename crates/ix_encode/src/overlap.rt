ghost use Rattle.std.specs.Prelude.{◌≡◌, map};
ghost use Rattle.ix_bits.specs.BaseTable.{are_apart, base_patterns};
ghost use Rattle.ix_extension.specs.Extensions.{view_instruction};
ghost use Rattle.ix_extension.specs.Faults.{pattern_of, word_of_both, shared_word, base_fault, overlap_with, overlap_fault};
ghost use Rattle.ix_encode.specs.Telling.{Finds};

use crate::EncodeErr;
use ix_bits::Name;
use ix_tree::Instruction;
use rv_isa::base_pattern;
use std::alloc::Global;

/// The count of base rows.
const ROWS: u8 = 40;

// Mask and match of an instruction.
fn pattern_of(instruction: &Instruction) -> (u32, u32)
    ensures { result ≡ pattern_of (view_instruction instruction.now) }
{
    (instruction.mask, instruction.matches)
}

// Whether no word has both patterns.
fn are_apart(p: (u32, u32), q: (u32, u32)) -> bool
    ensures { result ≡ are_apart p q }
{
    (p.1 ^ q.1) & (p.0 & q.0) > 0
}

// The word of a pattern and of the first base row that shares one with it.
fn base_word(p: (u32, u32)) -> Option<u32>
    ensures { result ≡ shared_word p base_patterns }
{
    for row in 0..ROWS {
        let q = base_pattern(row);
        if !are_apart(p, q) {
            return Some(p.1 | q.1);
        }
    }
    None
}

/// No instruction shares a word with a base row.
pub fn check_base(alloc: Global, all: &[Instruction]) -> Result<(), EncodeErr>
    ensures { Finds result (base_fault (map view_instruction all.now)) }
{
    for instruction in all {
        if let Some(word) = base_word(pattern_of(instruction)) {
            let a = Name::from_text(alloc, instruction.behaviour.name.as_str())?;
            return Err(EncodeErr::BaseOverlap { a, word });
        }
    }
    Ok(())
}

// The instruction shares no word with the others.
fn check_pairs(alloc: Global, x: &Instruction, others: &[Instruction]) -> Result<(), EncodeErr>
    ensures { Finds result (overlap_with (view_instruction x.now) (map view_instruction others.now)) }
{
    for y in others {
        if !are_apart(pattern_of(x), pattern_of(y)) {
            let a = Name::from_text(alloc, x.behaviour.name.as_str())?;
            let b = Name::from_text(alloc, y.behaviour.name.as_str())?;
            let word = x.matches | y.matches;
            return Err(EncodeErr::Overlap { a, b, word });
        }
    }
    Ok(())
}

/// No two instructions share a word.
pub fn check_overlaps(alloc: Global, all: &[Instruction]) -> Result<(), EncodeErr>
    ensures { Finds result (overlap_fault (map view_instruction all.now)) }
{
    let mut left = all;
    while let Some((x, others)) = left.split_first() {
        match check_pairs(alloc, x, others) {
            Err(error) => return Err(error),
            Ok(()) => {}
        }
        left = others;
    }
    Ok(())
}
