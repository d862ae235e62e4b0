ghost use Rattle.std.specs.Prelude.{◌≡◌, ℕ, ◌<◌, ◌≤◌, ◌^◌, List, length, map, Ok, IfOk, IfErr, OnOk, IsOkUnless};
ghost use Rattle.ix_extension.specs.Extensions.{view_instruction, view_extension};
ghost use Rattle.rv_asm_text.specs.Customs.{AreForms};
ghost use Rattle.rv_asm.specs.Labels.{place_of, found};
ghost use Rattle.rv_asm.specs.Sources.{Assembly, prepended, after, assembled_from, Assembles, IsErrOf, IsRefusedAs};

use crate::label::{Place, labels};
use crate::line::line_verdict_of;
use ix_tree::{Extension, Instruction};
use rv_asm_text::{CustomForm, Verdict, custom_forms, lines};
use rv_isa::Image;
use std::alloc::Global;
use std::collections::BTreeMap;

/// Why a source has no image. Lines are numbered from 1.
#[derive(Debug, Drop, PartialEq, Eq)]
pub enum AsmErr {
    /// The line has no form, or an unknown name.
    Line { at: u32 },
    /// The line's label is doubled, or its target is unknown.
    Label { at: u32 },
    /// A number or an offset of the line is outside its range, or its offset is odd.
    Reach { at: u32 },
    /// The line has word 65,537.
    Size { at: u32 },
    /// Memory was not found.
    Memory,
}

// Puts the word of the line of a number from 0 behind the words before it, or tells why the line fails.
fn take_line(image: &mut Image, number: u32, verdict: Verdict) -> Result<(), AsmErr>
    requires { number < 2 ^ 31 }
    ensures taken { OnOk result ((rest : ℕ → Assembly) → prepended image.old (after verdict number (length image.old) rest) ≡ prepended image.new (rest (length image.new))) }
    ensures refused { IfErr result (λ e. (rest : ℕ → Assembly) → IsErrOf (after verdict number (length image.old) rest) e) }
{
    let at = number + 1;
    match verdict {
        Verdict::Empty => Ok(()),
        Verdict::Word(word) => {
            if image.len() as usize == Image::MOST {
                return Err(AsmErr::Size { at });
            }
            match image.push(word) {
                Ok(()) => Ok(()),
                Err(_) => Err(AsmErr::Memory),
            }
        }
        Verdict::Line => Err(AsmErr::Line { at }),
        Verdict::Label => Err(AsmErr::Label { at }),
        Verdict::Reach => Err(AsmErr::Reach { at }),
    }
}

// The words of lines whose labels are known.
fn assemble_lines(
    alloc: Global,
    instructions: &[Instruction],
    forms: &BTreeMap<&[u8], CustomForm>,
    labels: &BTreeMap<&[u8], Place>,
    lines: &[&[u8]],
) -> Result<Image, AsmErr>
    requires known { AreForms (map view_instruction instructions.now) forms.now }
    requires short { length lines.now ≤ 2 ^ 31 }
    ensures words { IfOk result (λ image. assembled_from (map view_instruction instructions.now) (found labels.now) 0 0 (map (λ line. line.now) lines.now) ≡ Ok image) }
    ensures refused { IfErr result (λ e. IsErrOf (assembled_from (map view_instruction instructions.now) (found labels.now) 0 0 (map (λ line. line.now) lines.now)) e) }
{
    let mut image = Image::new(alloc);
    for (i, line) in lines.iter().enumerate() {
        let number = i as u32;
        let at = image.len();
        let Ok(verdict) = line_verdict_of(alloc, instructions, forms, labels, number, at, line)
        else {
            return Err(AsmErr::Memory);
        };
        match take_line(&mut image, number, verdict) {
            Ok(()) => {}
            Err(error) => return Err(error),
        }
    }
    Ok(image)
}

/// The image of a source of fewer than 2^31 bytes, with the instructions of an extension.
pub fn assemble(alloc: Global, extension: &Extension, bytes: &[u8]) -> Result<Image, AsmErr>
    requires { length bytes.now < 2 ^ 31 }
    // Each line has a word or none, and these are the words.
    ensures words { IfOk result (λ image. Assembles (view_extension extension.now) bytes.now image) }
    // The first line that fails, and why; nothing is said of memory.
    ensures refused { IfErr result (λ e. IsRefusedAs (view_extension extension.now) bytes.now e) }
    // Where each line has a word or none, only memory can fail.
    ensures only { (words : List ℕ) → Assembles (view_extension extension.now) bytes.now words → IsOkUnless result AsmErr.Memory }
{
    let Ok(lines) = lines(alloc, bytes) else {
        return Err(AsmErr::Memory);
    };
    let Ok(labels) = labels(alloc, lines.as_slice()) else {
        return Err(AsmErr::Memory);
    };
    let instructions = extension.instructions.as_slice();
    let Ok(forms) = custom_forms(alloc, instructions) else {
        return Err(AsmErr::Memory);
    };
    match assemble_lines(alloc, instructions, &forms, &labels, lines.as_slice()) {
        Ok(image) => Ok(image),
        Err(error) => Err(error),
    }
}
