ghost use Rattle.std.specs.Prelude.{◌≡◌, ℕ, List, map, Result, OnOk, IsOk};
ghost use Rattle.ix_tree.specs.TypedTrees.{TypedBlockTree};
ghost use Rattle.ix_tree.specs.View.{view_block};
ghost use Rattle.ix_typing.specs.Refusals.{Refusal, Step, each};
ghost use Rattle.ix_typing.specs.Texts.{judged_block};
ghost use Rattle.ix_check.specs.Telling.{TellsBlock, TellsBlockBody, TellsBlocks};

use crate::behaviour::{behaviour, name_behaviour};
use ix_bits::{List, put};
use ix_check_parts::CheckErr;
use ix_tree::{BlockText, TypedBlockText, TypedStmt};
use ix_typing::{Body, State, TakenNames};
use std::alloc::Global;

/// The always-blocks of a section with their types. `seen` has the names of the behaviours before them.
pub fn always_blocks(
    alloc: Global,
    state: &mut State,
    seen: &mut TakenNames,
    all: List<BlockText>,
) -> Result<List<TypedBlockText>, CheckErr>
    ensures told { TellsBlocks result seen.new (each (judged_block state.old.names) (map view_block all) seen.old) }
    ensures kept { OnOk result (state.new.names ≡ state.old.names) }
{
    let mut out = Vec::new(alloc);
    for text in all.into_vec() {
        match always_block(alloc, state, seen, text) {
            Err(error) => return Err(error),
            Ok(typed) => match put(&mut out, typed) {
                Err(_) => return Err(CheckErr::Memory),
                Ok(()) => {}
            },
        }
    }
    Ok(List::from_vec(out))
}

fn always_block(
    alloc: Global,
    state: &mut State,
    seen: &mut TakenNames,
    text: BlockText,
) -> Result<TypedBlockText, CheckErr>
    ensures told { TellsBlock result seen.new (judged_block state.old.names (view_block text) seen.old) }
    ensures kept { OnOk result (state.new.names ≡ state.old.names) }
{
    let body = block_body(alloc, state, seen, &text);
    with_body(text, body)
}

fn with_body(text: BlockText, body: Result<TypedStmt, CheckErr>) -> Result<TypedBlockText, CheckErr>
    ensures told { (after : List (List ℕ)) (r : Result (Step (List (List ℕ)) TypedBlockTree) Refusal) → TellsBlockBody body (view_block text) after r → TellsBlock result after r }
    ensures kept { OnOk result (IsOk body) }
{
    match body {
        Err(error) => {
            drop(text);
            Err(error)
        }
        Ok(typed) => {
            let BlockText { span, name, body } = text;
            drop(body);
            Ok(TypedBlockText {
                span,
                name,
                body: typed,
            })
        }
    }
}

// The behaviour of an always-block: its name, then its statement are judged.
fn block_body(
    alloc: Global,
    state: &mut State,
    seen: &mut TakenNames,
    text: &BlockText,
) -> Result<TypedStmt, CheckErr>
    ensures told { TellsBlockBody result (view_block text.now) seen.new (judged_block state.old.names (view_block text.now) seen.old) }
    ensures kept { OnOk result (state.new.names ≡ state.old.names) }
{
    match name_behaviour(alloc, seen, text.span, text.name.as_str()) {
        Err(error) => Err(error),
        Ok(()) => behaviour(alloc, Body::Always, state, &text.body),
    }
}
