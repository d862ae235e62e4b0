ghost use Rattle.std.specs.Prelude.{◌≡◌, ℕ, List, map, option_map, Some, if◌then◌else◌, IfOk, OnOk};
ghost use Rattle.ix_tree.specs.Lexing.{same_bytes};
ghost use Rattle.ix_tree.specs.TypedView.{typed_whole};
ghost use Rattle.ix_extension.specs.Extensions.{view_instruction};
ghost use Rattle.rv_asm_text.specs.Operands.{operands_of};
ghost use Rattle.rv_asm_text.specs.Filling.{found_verdict, named_instruction};
ghost use Rattle.rv_asm_text.specs.Customs.{found, form_in, AreForms};

use crate::filling::filled;
use crate::operand::{Operand, operands};
use crate::verdict::Verdict;
use ix_bits::Memory;
use ix_tree::Instruction;
use std::alloc::Global;
use std::collections::BTreeMap;

/// How an instruction of an extension is written.
#[derive(Drop)]
pub struct CustomForm {
    /// Its place among the instructions of the extension, from 0.
    pub place: usize,
    /// Its operands in the order in which they are written.
    pub operands: Vec<Operand>,
}

// Puts the form of the instruction at a place under its name.
fn put<'a>(
    alloc: Global,
    forms: &mut BTreeMap<&'a [u8], CustomForm>,
    place: usize,
    instruction: &'a Instruction,
) -> Result<(), Memory>
    ensures { OnOk result ((n : List ℕ) → form_in forms.new n ≡ (if same_bytes instruction.now.behaviour.name n then Some (place, operands_of (map typed_whole instruction.now.behaviour.body) instruction.now.pieces) else form_in forms.old n)) }
{
    let operands = operands(alloc, instruction)?;
    let name = instruction.behaviour.name.as_str().as_bytes();
    forms.insert(name, CustomForm { place, operands })?;
    Ok(())
}

/// How each instruction of an extension is written, by its name: the first one where two have a name.
pub fn custom_forms(
    alloc: Global,
    instructions: &[Instruction],
) -> Result<BTreeMap<&[u8], CustomForm>, Memory>
    ensures { IfOk result (AreForms (map view_instruction instructions.now)) }
{
    let mut forms = BTreeMap::new(alloc);
    let mut place = instructions.len();
    while place > 0 {
        place -= 1;
        put(alloc, &mut forms, place, &instructions[place])?;
    }
    Ok(forms)
}

// The form under a name.
fn form<'a>(forms: &'a BTreeMap<&[u8], CustomForm>, name: &[u8]) -> Option<&'a CustomForm>
    ensures { option_map (λ form. form.now) result ≡ found forms.now name.now }
{
    forms.get(name)
}

/// What the instruction of an extension with this name says with these operands: its word, or Reach; and Line where there is none, or
/// the operands are others than its own.
pub fn custom_word(
    instructions: &[Instruction],
    forms: &BTreeMap<&[u8], CustomForm>,
    name: &[u8],
    texts: &[&[u8]],
) -> Verdict
    requires { AreForms (map view_instruction instructions.now) forms.now }
    ensures { result ≡ found_verdict (map (λ text. text.now) texts.now) (named_instruction name.now (map view_instruction instructions.now)) }
{
    match form(forms, name) {
        None => Verdict::Line,
        Some(form) => {
            prove!(form.place < instructions.len());
            let instruction = &instructions[form.place];
            filled(
                instruction.pieces.as_slice(),
                instruction.matches,
                form.operands.as_slice(),
                texts,
            )
        }
    }
}
