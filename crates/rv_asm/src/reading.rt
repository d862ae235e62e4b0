ghost use Rattle.std.specs.Prelude.{◌≡◌, ◌==◌, ℕ, List, length, map};
ghost use Rattle.rv_asm.specs.Labels.{found};
ghost use Rattle.rv_asm.specs.Readings.{kinds_of, start_of, read_operand as specified_read_operand, read_operands as specified_read_operands, with_target};

use crate::form::Form;
use crate::label::{Place, Target, target_at};
use rv_asm_text::{Number, indexed, read_number, register};
use std::collections::BTreeMap;

/// What an operand of a line is.
#[derive(Clone, Copy, Debug, PartialEq, Eq)]
pub enum OperandKind {
    /// The register that is written.
    Rd,
    /// The first register that is read.
    Rs1,
    /// The second register that is read.
    Rs2,
    /// A number.
    Number,
    /// A label or an offset.
    Target,
    /// `n(rs1)`: a number, and the first register that is read.
    Indexed,
}

/// What the operands of a line say.
#[derive(Clone, Copy, Debug, PartialEq, Eq)]
pub struct Operands {
    pub rd: u8,
    pub rs1: u8,
    pub rs2: u8,
    pub number: Number,
}

/// Why operands are not read.
#[derive(Clone, Copy, Debug, PartialEq, Eq)]
pub enum Unread {
    /// There are more or fewer, or one has not the form of its kind.
    Line,
    /// A target is a label that stands nowhere.
    Label,
}

/// `rd, rs1, rs2`.
static REGISTERS: [OperandKind; 3] = [OperandKind::Rd, OperandKind::Rs1, OperandKind::Rs2];

/// `rd, rs1, n`.
static NUMBER: [OperandKind; 3] = [OperandKind::Rd, OperandKind::Rs1, OperandKind::Number];

/// `rd, n(rs1)`.
static LOAD: [OperandKind; 2] = [OperandKind::Rd, OperandKind::Indexed];

/// `rs2, n(rs1)`.
static STORE: [OperandKind; 2] = [OperandKind::Rs2, OperandKind::Indexed];

/// `rs1, rs2, target`.
static BRANCH: [OperandKind; 3] = [OperandKind::Rs1, OperandKind::Rs2, OperandKind::Target];

/// `rd, n`.
static UPPER: [OperandKind; 2] = [OperandKind::Rd, OperandKind::Number];

/// `rd, target`.
static JUMP: [OperandKind; 2] = [OperandKind::Rd, OperandKind::Target];

/// `rd, rs`.
static MOVE: [OperandKind; 2] = [OperandKind::Rd, OperandKind::Rs1];

/// `target`.
static GOTO: [OperandKind; 1] = [OperandKind::Target];

/// `n`.
static WORD: [OperandKind; 1] = [OperandKind::Number];

/// The kinds of the operands of a form, where so many are written.
#[tactic(auto, unfolding(crate::specs::Readings::kinds_of))]
pub(crate) fn kinds(form: Form, count: usize) -> &'static [OperandKind]
    ensures { result.now ≡ kinds_of form count }
{
    match form {
        Form::Registers => &REGISTERS,
        Form::Number => &NUMBER,
        Form::Load => &LOAD,
        Form::Store => &STORE,
        Form::Branch => &BRANCH,
        Form::Upper => &UPPER,
        Form::Jump => &JUMP,
        Form::JumpRegister => { if count == 2 { &LOAD } else { &NUMBER } }
        Form::Fence | Form::Bare | Form::Return => &[],
        Form::Move => &MOVE,
        Form::Goto => &GOTO,
        Form::Word => &WORD,
    }
}

/// What a form says before its operands are read. A fence is one of all reads and writes, and
/// `ret` jumps to x1.
#[tactic(auto, unfolding(crate::specs::Readings::start_of))]
pub(crate) fn start(form: Form) -> Operands
    ensures { result ≡ start_of form }
{
    let (rs1, size) = match form {
        Form::Fence => (0, 255),
        Form::Return => (1, 0),
        _ => (0, 0),
    };
    Operands {
        rd: 0,
        rs1,
        rs2: 0,
        number: Number {
            is_negative: false,
            size,
        },
    }
}

// What a target says behind other operands.
fn read_target(target: Target, operands: Operands) -> Result<Operands, Unread>
    ensures { result ≡ with_target target operands }
{
    match target {
        Target::Bad => Err(Unread::Line),
        Target::Unknown => Err(Unread::Label),
        Target::By(number) => Ok(Operands { number, ..operands }),
    }
}

// Reads an operand of a kind behind others.
fn read_operand(
    labels: &BTreeMap<&[u8], Place>,
    at: u32,
    kind: OperandKind,
    text: &[u8],
    operands: Operands,
) -> Result<Operands, Unread>
    ensures { result ≡ specified_read_operand (found labels.now) at kind text.now operands }
{
    match kind {
        OperandKind::Rd => {
            let rd = register(text).ok_or(Unread::Line)?;
            Ok(Operands { rd, ..operands })
        }
        OperandKind::Rs1 => {
            let rs1 = register(text).ok_or(Unread::Line)?;
            Ok(Operands { rs1, ..operands })
        }
        OperandKind::Rs2 => {
            let rs2 = register(text).ok_or(Unread::Line)?;
            Ok(Operands { rs2, ..operands })
        }
        OperandKind::Number => {
            let number = read_number(text).ok_or(Unread::Line)?;
            Ok(Operands { number, ..operands })
        }
        OperandKind::Target => read_target(target_at(labels, at, text), operands),
        OperandKind::Indexed => {
            let (outside, inside) = indexed(text).ok_or(Unread::Line)?;
            let rs1 = register(inside).ok_or(Unread::Line)?;
            let number = read_number(outside).ok_or(Unread::Line)?;
            Ok(Operands {
                rs1,
                number,
                ..operands
            })
        }
    }
}

/// Reads operands of these kinds one after another, for the word at a place.
pub(crate) fn read_operands(
    labels: &BTreeMap<&[u8], Place>,
    at: u32,
    kinds: &[OperandKind],
    texts: &[&[u8]],
    start: Operands,
) -> Result<Operands, Unread>
    ensures { result ≡ specified_read_operands (found labels.now) at kinds.now (map (λ text. text.now) texts.now) start }
{
    if texts.len() != kinds.len() {
        return Err(Unread::Line);
    }
    let mut operands = start;
    for (k, text) in texts.iter().enumerate() {
        operands = read_operand(labels, at, kinds[k], text, operands)?;
    }
    Ok(operands)
}
