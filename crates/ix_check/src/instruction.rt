ghost use Rattle.std.specs.Prelude.{◌≡◌, ℕ, List, map, Result, OnOk, IsOk};
ghost use Rattle.ix_tree.specs.TypedTrees.{TypedInstrTree};
ghost use Rattle.ix_tree.specs.View.{view_instr};
ghost use Rattle.ix_tree.specs.Rows.{view_whole};
ghost use Rattle.ix_typing.specs.declared.state.Body.TheVariants as B;
ghost use Rattle.ix_typing.specs.Refusals.{Refusal, Step, each};
ghost use Rattle.ix_typing.specs.Texts.{behaviour, fields, judged_instr};
ghost use Rattle.ix_check.specs.Telling.{TellsBody, TellsInstr, TellsInstrBody, TellsInstrs};

use crate::behaviour::{behaviour, name_behaviour};
use ix_bits::{List, put};
use ix_check_parts::{CheckErr, check_pieces, declare_fields};
use ix_tree::{Instr, PieceText, Stmt, TypedInstr, TypedStmt};
use ix_typing::{Body, State, TakenNames};
use std::alloc::Global;

/// The instructions of a section with their types. `seen` has the names of the behaviours before them.
pub fn instructions(
    alloc: Global,
    state: &mut State,
    seen: &mut TakenNames,
    all: List<Instr>,
) -> Result<List<TypedInstr>, CheckErr>
    ensures told { TellsInstrs result seen.new (each (judged_instr state.old.names) (map view_instr all) seen.old) }
    ensures kept { OnOk result (state.new.names ≡ state.old.names) }
{
    let mut out = Vec::new(alloc);
    for text in all.into_vec() {
        match instruction(alloc, state, seen, text) {
            Err(error) => return Err(error),
            Ok(typed) => match put(&mut out, typed) {
                Err(_) => return Err(CheckErr::Memory),
                Ok(()) => {}
            },
        }
    }
    Ok(List::from_vec(out))
}

fn instruction(
    alloc: Global,
    state: &mut State,
    seen: &mut TakenNames,
    text: Instr,
) -> Result<TypedInstr, CheckErr>
    ensures told { TellsInstr result seen.new (judged_instr state.old.names (view_instr text) seen.old) }
    ensures kept { OnOk result (state.new.names ≡ state.old.names) }
{
    let body = instruction_body(alloc, state, seen, &text);
    with_body(text, body)
}

fn with_body(text: Instr, body: Result<TypedStmt, CheckErr>) -> Result<TypedInstr, CheckErr>
    ensures told { (after : List (List ℕ)) (r : Result (Step (List (List ℕ)) TypedInstrTree) Refusal) → TellsInstrBody body (view_instr text) after r → TellsInstr result after r }
    ensures kept { OnOk result (IsOk body) }
{
    match body {
        Err(error) => {
            drop(text);
            Err(error)
        }
        Ok(typed) => {
            let Instr {
                span,
                name,
                pieces,
                body,
            } = text;
            drop(body);
            Ok(TypedInstr {
                span,
                name,
                pieces,
                body: typed,
            })
        }
    }
}

// The behaviour of an instruction: its name, then its pieces, then its statement are judged.
fn instruction_body(
    alloc: Global,
    state: &mut State,
    seen: &mut TakenNames,
    text: &Instr,
) -> Result<TypedStmt, CheckErr>
    ensures told { TellsInstrBody result (view_instr text.now) seen.new (judged_instr state.old.names (view_instr text.now) seen.old) }
    ensures kept { OnOk result (state.new.names ≡ state.old.names) }
{
    match name_behaviour(alloc, seen, text.span, text.name.as_str()) {
        Err(error) => Err(error),
        Ok(()) => match check_pieces(&state.names, text.pieces.as_slice()) {
            Err(error) => Err(error),
            Ok(()) => below_fields(alloc, state, text.pieces.as_slice(), &text.body),
        },
    }
}

// A behaviour in which the fields of an encoding are visible.
fn below_fields(
    alloc: Global,
    state: &mut State,
    pieces: &[PieceText],
    body: &Stmt,
) -> Result<TypedStmt, CheckErr>
    ensures told { TellsBody result (behaviour B.Instruction (fields state.old.names pieces.now).names (view_whole body.now)) }
    ensures kept { OnOk result (state.new.names ≡ state.old.names) }
{
    let before = state.names.len();
    match declare_fields(alloc, &mut state.names, pieces) {
        Err(error) => Err(error),
        Ok(()) => {
            let body = behaviour(alloc, Body::Instruction, state, body);
            state.names.keep(before);
            body
        }
    }
}
