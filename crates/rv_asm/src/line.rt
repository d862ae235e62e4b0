ghost use Rattle.std.specs.Prelude.{◌≡◌, ◌<◌, map, IfOk};
ghost use Rattle.ix_extension.specs.Extensions.{view_instruction};
ghost use Rattle.rv_asm_text.specs.Customs.{AreForms};
ghost use Rattle.rv_asm.specs.Labels.{found};
ghost use Rattle.rv_asm.specs.Readings.{AreRegisters};
ghost use Rattle.rv_asm.specs.Verdicts.{word_of, form_verdict, instruction_verdict, with_label as specified_with_label, line_verdict};

use crate::base::{plain_word, row_word};
use crate::form::{Form, form_of, row_of};
use crate::label::{Place, has_doubled_label};
use crate::reading::{Operands, Unread, kinds, read_operands, start};
use ix_bits::Memory;
use ix_tree::Instruction;
use rv_asm_text::{CustomForm, Verdict, custom_word, instruction, mnemonic, name, operands};
use std::alloc::Global;
use std::collections::BTreeMap;

/// The word of a form with these operands, or Reach.
#[tactic(auto, unfolding(crate::specs::Verdicts::word_of))]
fn word(form: Form, row: u8, operands: Operands) -> Verdict
    requires row { row < 40 }
    requires small { AreRegisters operands }
    ensures { result ≡ word_of form row operands }
{
    match form {
        Form::Word => plain_word(operands.number),
        _ => row_word(
            row,
            operands.rd,
            operands.rs1,
            operands.rs2,
            operands.number,
        ),
    }
}

/// What a mnemonic says with its operands, as the word at a place.
#[tactic(auto, unfolding(crate::specs::Verdicts::form_verdict))]
fn base_line(
    labels: &BTreeMap<&[u8], Place>,
    at: u32,
    form: Form,
    row: u8,
    texts: &[&[u8]],
) -> Verdict
    requires { row < 40 }
    ensures { result ≡ form_verdict (found labels.now) at form row (map (λ text. text.now) texts.now) }
{
    let kinds = kinds(form, texts.len());
    match read_operands(labels, at, kinds, texts, start(form)) {
        Ok(operands) => word(form, row, operands),
        Err(Unread::Line) => Verdict::Line,
        Err(Unread::Label) => Verdict::Label,
    }
}

// What the instruction of a line says.
fn instruction_line(
    alloc: Global,
    instructions: &[Instruction],
    forms: &BTreeMap<&[u8], CustomForm>,
    labels: &BTreeMap<&[u8], Place>,
    at: u32,
    text: &[u8],
) -> Result<Verdict, Memory>
    requires { AreForms (map view_instruction instructions.now) forms.now }
    ensures { IfOk result (λ verdict. verdict ≡ instruction_verdict (map view_instruction instructions.now) (found labels.now) at text.now) }
{
    if text.is_empty() {
        return Ok(Verdict::Empty);
    }
    let texts = operands(alloc, text)?;
    let name = name(text);
    match mnemonic(name) {
        Some(place) => Ok(base_line(labels, at, form_of(place), row_of(place), texts.as_slice())),
        None => Ok(custom_word(instructions, forms, name, texts.as_slice())),
    }
}

fn with_label(is_doubled: bool, verdict: Verdict) -> Verdict
    ensures { result ≡ specified_with_label is_doubled verdict }
{
    if is_doubled {
        match verdict {
            Verdict::Line => Verdict::Line,
            Verdict::Empty | Verdict::Word(_) | Verdict::Label | Verdict::Reach => Verdict::Label,
        }
    } else {
        verdict
    }
}

/// What is said of the line of a number from 0, before which there are so many words.
#[tactic(auto, unfolding(crate::specs::Verdicts::line_verdict))]
pub fn line_verdict_of(
    alloc: Global,
    instructions: &[Instruction],
    forms: &BTreeMap<&[u8], CustomForm>,
    labels: &BTreeMap<&[u8], Place>,
    number: u32,
    at: u32,
    line: &[u8],
) -> Result<Verdict, Memory>
    requires { AreForms (map view_instruction instructions.now) forms.now }
    ensures { IfOk result (λ verdict. verdict ≡ line_verdict (map view_instruction instructions.now) (found labels.now) number at line.now) }
{
    let verdict = instruction_line(alloc, instructions, forms, labels, at, instruction(line))?;
    Ok(with_label(has_doubled_label(labels, number, line), verdict))
}
