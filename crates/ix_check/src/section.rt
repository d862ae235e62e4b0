ghost use Rattle.std.specs.Prelude.{◌≡◌, map, Result, Ok, OnOk, IsOk};
ghost use Rattle.ix_tree.specs.Trees.{k_states, k_instructions, k_always};
ghost use Rattle.ix_tree.specs.TypedTrees.{TypedSectionKindTree};
ghost use Rattle.ix_tree.specs.View.{view_state, view_instr, view_block, view_section};
ghost use Rattle.ix_typing.specs.declared.state.Front.{Front};
ghost use Rattle.ix_typing.specs.Refusals.{Refusal, Step, and_then};
ghost use Rattle.ix_typing.specs.Texts.{global_state, judged_kind, judged_section};
ghost use Rattle.ix_check.specs.Telling.{TellsKind, TellsSection};

use crate::always::always_blocks;
use crate::behaviour::restart;
use crate::instruction::instructions;
use ix_bits::List;
use ix_check_parts::{CheckErr, check_states};
use ix_tree::{
    BlockText, Instr, Section, SectionKind, Span, State as StateText, TypedSection,
    TypedSectionKind,
};
use ix_typing::{Front, State};
use std::alloc::Global;

/// A section with its types. Of each kind there is one at most.
pub fn section(
    alloc: Global,
    state: &mut State,
    front: &mut Front,
    section: Section,
) -> Result<TypedSection, CheckErr>
    ensures told { TellsSection result front.new (judged_section (global_state state.old.names) (view_section section) front.old) }
    ensures kept { OnOk result (state.new.names ≡ state.old.names) }
{
    let Section { span, kind } = section;
    match kind {
        SectionKind::States(all) => {
            let kind = states(alloc, state, front, span, all);
            with_span(span, kind)
        }
        SectionKind::Instructions(all) => {
            let kind = of_instructions(alloc, state, front, span, all);
            with_span(span, kind)
        }
        SectionKind::Always(all) => {
            let kind = of_blocks(alloc, state, front, span, all);
            with_span(span, kind)
        }
    }
}

fn with_span(span: Span, kind: Result<TypedSectionKind, CheckErr>) -> Result<TypedSection, CheckErr>
    ensures told { (after : Front) (r : Result (Step Front TypedSectionKindTree) Refusal) → TellsKind kind after r → TellsSection result after (and_then r (λ k. Ok (record { item = record { span = span; kind = k.item }; after = k.after }))) }
    ensures kept { OnOk result (IsOk kind) }
{
    match kind {
        Err(error) => Err(error),
        Ok(kind) => Ok(TypedSection { span, kind }),
    }
}

fn states(
    alloc: Global,
    state: &mut State,
    front: &mut Front,
    span: Span,
    all: List<StateText>,
) -> Result<TypedSectionKind, CheckErr>
    ensures told { TellsKind result front.new (judged_kind (global_state state.old.names) span (k_states (map view_state all)) front.old) }
    ensures kept { OnOk result (state.new.names ≡ state.old.names) }
{
    if front.states {
        drop(all);
        return Err(CheckErr::Twice { span });
    }
    restart(alloc, state);
    match check_states(alloc, state, all) {
        Err(error) => Err(error),
        Ok(all) => {
            front.states = true;
            Ok(TypedSectionKind::States(all))
        }
    }
}

fn of_instructions(
    alloc: Global,
    state: &mut State,
    front: &mut Front,
    span: Span,
    all: List<Instr>,
) -> Result<TypedSectionKind, CheckErr>
    ensures told { TellsKind result front.new (judged_kind (global_state state.old.names) span (k_instructions (map view_instr all)) front.old) }
    ensures kept { OnOk result (state.new.names ≡ state.old.names) }
{
    if front.instructions {
        drop(all);
        return Err(CheckErr::Twice { span });
    }
    match instructions(alloc, state, &mut front.behaviours, all) {
        Err(error) => Err(error),
        Ok(all) => {
            front.instructions = true;
            Ok(TypedSectionKind::Instructions(all))
        }
    }
}

fn of_blocks(
    alloc: Global,
    state: &mut State,
    front: &mut Front,
    span: Span,
    all: List<BlockText>,
) -> Result<TypedSectionKind, CheckErr>
    ensures told { TellsKind result front.new (judged_kind (global_state state.old.names) span (k_always (map view_block all)) front.old) }
    ensures kept { OnOk result (state.new.names ≡ state.old.names) }
{
    if front.always {
        drop(all);
        return Err(CheckErr::Twice { span });
    }
    match always_blocks(alloc, state, &mut front.behaviours, all) {
        Err(error) => Err(error),
        Ok(all) => {
            front.always = true;
            Ok(TypedSectionKind::Always(all))
        }
    }
}
