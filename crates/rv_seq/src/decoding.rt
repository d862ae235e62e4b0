ghost use Rattle.std.specs.Prelude.{◌≡◌, ◌+◌, ◌<◌, ◌≤◌, map, length, IfSome};
ghost use Rattle.ix_extension.specs.Extensions.{view_instruction, view_extension};
ghost use Rattle.ix_extension.specs.WellFormed.{IsWellFormed};
ghost use Rattle.rv_isa.specs.Fields.{rd_of as specified_rd_of, rs1_of as specified_rs1_of, rs2_of as specified_rs2_of};
ghost use Rattle.rv_seq.specs.Decoding.{own_from, decoded_in, IsIn};

use crate::decoded::Decoded;
use ix_behaviour::behaviour_laws;
use ix_tree::{Extension, Instruction};
use rv_isa::decode;

/// The x register that an instruction's word names for what is written.
pub fn rd_of(word: u32) -> u8
    ensures value { result ≡ specified_rd_of word }
    ensures below { result < 32 }
{
    ((word >> 7) % 32) as u8
}

/// The x register that an instruction's word names for the first operand.
pub fn rs1_of(word: u32) -> u8
    ensures value { result ≡ specified_rs1_of word }
    ensures below { result < 32 }
{
    ((word >> 15) % 32) as u8
}

/// The x register that an instruction's word names for the second operand.
pub fn rs2_of(word: u32) -> u8
    ensures value { result ≡ specified_rs2_of word }
    ensures below { result < 32 }
{
    ((word >> 20) % 32) as u8
}

// The number of the instruction that a word is.
fn own_number(instructions: &[Instruction], word: u32) -> Option<u8>
    requires { length instructions.now ≤ 64 }
    ensures value { result ≡ own_from 0 (map view_instruction instructions.now) word }
    ensures below { IfSome result (λ n. n < length instructions.now) }
{
    let mut left = instructions;
    let mut number = 0;
    while let Some((first, rest)) = left.split_first() {
        if word & first.mask == first.matches {
            return Some(number);
        }
        number += 1;
        left = rest;
    }
    None
}

/// The instruction of a word on a core with a well-formed extension, and none where the word is no instruction.
#[tactic(auto, unfolding(crate::specs::Decoding::decoded_in))]
pub fn decode_in(ext: &Extension, word: u32) -> Option<Decoded>
    requires { IsWellFormed ext.now }
    ensures value { result ≡ decoded_in (view_extension ext.now) word }
    ensures is_in { IfSome result (λ d. IsIn (view_extension ext.now) d) }
{
    behaviour_laws();
    match decode(word) {
        Some(base) => Some(Decoded::Base(base)),
        None => match own_number(ext.instructions.as_slice(), word) {
            Some(number) => Some(Decoded::Own(number)),
            None => None,
        },
    }
}
