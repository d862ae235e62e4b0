ghost use Rattle.std.specs.Prelude.{◌≡◌, [], ◌∷◌, map, All, IfOk};
ghost use Rattle.ix_tree.specs.declared.typed.TypedInstr.{TypedInstr};
ghost use Rattle.ix_tree.specs.TypedView.{typed_whole, typed_instr, typed_block};
ghost use Rattle.ix_extension.specs.Encodings.{AreInWord, bits_of};
ghost use Rattle.ix_extension.specs.Extensions.{view_behaviour, view_instruction, instruction_of, block_of};
ghost use Rattle.ix_encode.specs.Telling.{IsWhole};

use crate::encoding::{mask_of, match_of, pieces_of};
use ix_bits::{List, Memory, Name};
use ix_tree::{Behaviour, Instruction, TypedBlockText, TypedInstr, TypedStmt};
use std::alloc::Global;

/// The instructions with their encodings, each of 32 bits.
pub fn instructions(alloc: Global, all: Vec<TypedInstr>) -> Result<List<Instruction>, Memory>
    requires { All IsWhole all.items }
    ensures { IfOk result (λ xs. map view_instruction xs ≡ map instruction_of (map typed_instr all.items)) }
{
    let mut out = List::new(alloc);
    for text in all {
        match instruction(alloc, text) {
            Err(_) => return Err(Memory),
            Ok(instruction) => match out.push(instruction) {
                Err(_) => return Err(Memory),
                Ok(()) => {}
            },
        }
    }
    Ok(out)
}

fn instruction(alloc: Global, text: TypedInstr) -> Result<Instruction, Memory>
    requires { IsWhole text }
    ensures { IfOk result (λ x. view_instruction x ≡ instruction_of (typed_instr text)) }
{
    let mask = mask_of(text.pieces.as_slice());
    let matches = match_of(text.pieces.as_slice());
    match pieces_of(alloc, text.pieces.as_slice()) {
        Err(_) => Err(Memory),
        Ok(pieces) => match behaviour(alloc, text.name, text.body) {
            Err(_) => Err(Memory),
            Ok(behaviour) => Ok(Instruction {
                mask,
                matches,
                pieces,
                behaviour,
            }),
        },
    }
}

fn behaviour(alloc: Global, name: Name, body: TypedStmt) -> Result<Behaviour, Memory>
    ensures { IfOk result (λ b. view_behaviour b ≡ record { name = name; body = typed_whole body ∷ [] }) }
{
    let mut all = List::new(alloc);
    match all.push(body) {
        Err(_) => Err(Memory),
        Ok(()) => Ok(Behaviour { name, body: all }),
    }
}

/// The always-blocks.
pub fn blocks(alloc: Global, all: Vec<TypedBlockText>) -> Result<List<Behaviour>, Memory>
    ensures { IfOk result (λ xs. map view_behaviour xs ≡ map block_of (map typed_block all.items)) }
{
    let mut out = List::new(alloc);
    for text in all {
        match behaviour(alloc, text.name, text.body) {
            Err(_) => return Err(Memory),
            Ok(block) => match out.push(block) {
                Err(_) => return Err(Memory),
                Ok(()) => {}
            },
        }
    }
    Ok(out)
}
