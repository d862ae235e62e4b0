ghost use Rattle.std.specs.Prelude.{◌≡◌, ◌++◌, [], ◌≤◌, map, IfOk, OnOk, IfSome};
ghost use Rattle.ix_tree.specs.TypedView.{typed_whole};
ghost use Rattle.rv_asm_text.specs.Numbers.{most_size};
ghost use Rattle.rv_asm_text.specs.Operands.{has_field as specified_has_field, is_register_at as specified_is_register_at, register_from, is_no_number as specified_is_no_number, numbers_from, operands_of, operand_value};

use crate::indexing::{body_indexes, is_same};
use crate::names::register;
use crate::number::{Number, read_number};
use ix_bits::Memory;
use ix_tree::{Instruction, Piece, TypedStmt};
use std::alloc::Global;

/// A field as an operand: the index of its first piece, and whether it takes a register.
#[derive(Clone, Copy, Debug, PartialEq, Eq)]
pub struct Operand {
    pub piece: usize,
    pub is_register: bool,
}

fn has_field(pieces: &[Piece], field: &str) -> bool
    ensures { result ≡ specified_has_field field.now pieces.now }
{
    let mut left = pieces;
    while let Some((piece, rest)) = left.split_first() {
        if is_same(&piece.field, field) {
            return true;
        }
        left = rest;
    }
    false
}

fn is_register_at(place: u8, body: &[TypedStmt], piece: &Piece) -> bool
    ensures { result ≡ specified_is_register_at place (map typed_whole body.now) piece.now }
{
    if piece.lo == 0 && piece.at == place {
        body_indexes(body, piece.field.as_str())
    } else {
        false
    }
}

// Puts the field by which X is indexed and whose bit 0 stands at this place behind the operands.
fn push_register(
    operands: &mut Vec<Operand>,
    place: u8,
    body: &[TypedStmt],
    pieces: &[Piece],
) -> Result<(), Memory>
    ensures { OnOk result (operands.new.items ≡ operands.old.items ++ register_from place (map typed_whole body.now) 0 pieces.now) }
{
    for (k, piece) in pieces.iter().enumerate() {
        if is_register_at(place, body, piece) {
            operands.push(Operand {
                piece: k,
                is_register: true,
            })?;
            return Ok(());
        }
    }
    Ok(())
}

fn is_no_number(body: &[TypedStmt], before: &[Piece], piece: &Piece) -> bool
    ensures { result ≡ specified_is_no_number (map typed_whole body.now) before.now piece.now }
{
    if has_field(before, piece.field.as_str()) {
        true
    } else {
        body_indexes(body, piece.field.as_str())
    }
}

// Puts the fields that take numbers behind the operands.
fn push_numbers(
    operands: &mut Vec<Operand>,
    body: &[TypedStmt],
    pieces: &[Piece],
) -> Result<(), Memory>
    ensures { OnOk result (operands.new.items ≡ operands.old.items ++ numbers_from (map typed_whole body.now) [] 0 pieces.now) }
{
    for (k, piece) in pieces.iter().enumerate() {
        if !is_no_number(body, &pieces[..k], piece) {
            operands.push(Operand {
                piece: k,
                is_register: false,
            })?;
        }
    }
    Ok(())
}

/// The operands of an instruction, in the order in which they are written.
#[tactic(auto, unfolding(crate::specs::Operands::operands_of))]
pub(crate) fn operands(alloc: Global, instruction: &Instruction) -> Result<Vec<Operand>, Memory>
    ensures { IfOk result (λ operands. operands.items ≡ operands_of (map typed_whole instruction.now.behaviour.body) instruction.now.pieces) }
{
    let body = instruction.behaviour.body.as_slice();
    let pieces = instruction.pieces.as_slice();
    let mut operands = Vec::new(alloc);
    push_register(&mut operands, 7, body, pieces)?;
    push_register(&mut operands, 15, body, pieces)?;
    push_register(&mut operands, 20, body, pieces)?;
    push_numbers(&mut operands, body, pieces)?;
    Ok(operands)
}

/// What an operand's text writes: the number of a register, or a number.
pub(crate) fn value(operand: Operand, text: &[u8]) -> Option<Number>
    ensures { result ≡ operand_value operand text.now }
{
    if operand.is_register {
        match register(text) {
            None => None,
            Some(register) => Some(Number {
                is_negative: false,
                size: u64::from(register),
            }),
        }
    } else {
        read_number(text)
    }
}
