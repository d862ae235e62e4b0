ghost use Rattle.std.specs.Prelude.{◌≡◌, ◌++◌, map, IfOk, OnOk};
ghost use Rattle.ix_tree.specs.TypedView.{typed_state, typed_instr, typed_block, typed_section, typed_section_kind};
ghost use Rattle.ix_extension.specs.Extensions.{states_in, instrs_in, blocks_in, all_states, all_instrs, all_blocks};

use ix_bits::{List, Memory};
use ix_tree::{TypedBlockText, TypedInstr, TypedSection, TypedSectionKind, TypedState};
use std::alloc::Global;

/// The registers and tables, the instructions and the always-blocks of a text, whatever sections they stand in.
#[derive(Drop)]
pub struct Parts {
    pub states: Vec<TypedState>,
    pub instructions: Vec<TypedInstr>,
    pub blocks: Vec<TypedBlockText>,
}

/// The parts of a text, in the order of the source.
pub fn split(alloc: Global, sections: List<TypedSection>) -> Result<Parts, Memory>
    ensures states { IfOk result (λ p. map typed_state p.states.items ≡ all_states (map typed_section sections)) }
    ensures instructions { IfOk result (λ p. map typed_instr p.instructions.items ≡ all_instrs (map typed_section sections)) }
    ensures blocks { IfOk result (λ p. map typed_block p.blocks.items ≡ all_blocks (map typed_section sections)) }
{
    let mut parts = Parts {
        states: Vec::new(alloc),
        instructions: Vec::new(alloc),
        blocks: Vec::new(alloc),
    };
    for section in sections.into_vec() {
        match add(&mut parts, section.kind) {
            Err(_) => return Err(Memory),
            Ok(()) => {}
        }
    }
    Ok(parts)
}

// Puts what stands in a section behind the parts of its kind.
fn add(parts: &mut Parts, kind: TypedSectionKind) -> Result<(), Memory>
    ensures states { OnOk result (map typed_state parts.new.states.items ≡ map typed_state parts.old.states.items ++ states_in (typed_section_kind kind)) }
    ensures instructions { OnOk result (map typed_instr parts.new.instructions.items ≡ map typed_instr parts.old.instructions.items ++ instrs_in (typed_section_kind kind)) }
    ensures blocks { OnOk result (map typed_block parts.new.blocks.items ≡ map typed_block parts.old.blocks.items ++ blocks_in (typed_section_kind kind)) }
{
    match kind {
        TypedSectionKind::States(all) => append(&mut parts.states, all),
        TypedSectionKind::Instructions(all) => append(&mut parts.instructions, all),
        TypedSectionKind::Always(all) => append(&mut parts.blocks, all),
    }
}

// Puts the items behind the others.
fn append<T: Drop>(to: &mut Vec<T>, items: List<T>) -> Result<(), Memory>
    ensures { OnOk result (to.new.items ≡ to.old.items ++ items) }
{
    for item in items.into_vec() {
        match to.push(item) {
            Err(_) => return Err(Memory),
            Ok(()) => {}
        }
    }
    Ok(())
}
