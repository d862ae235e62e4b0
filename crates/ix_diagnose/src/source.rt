use crate::place::Place;
use crate::text::{before_blanks, behind_blanks, is_blank, is_name_byte, part, text_at};

/// The text of a line of a source without its label and its comment.
fn instruction(line: &[u8]) -> &[u8] {
    let count = line.iter().position(|b| *b == b'#').unwrap_or(line.len());
    let code = &line[..count];
    match code.iter().position(|b| *b == b':') {
        Some(colon) => &code[colon + 1..],
        None => code,
    }
}

/// The first word of an instruction.
fn mnemonic(text: &[u8]) -> &str {
    let from = behind_blanks(text, 0);
    let rest = &text[from..];
    let count = rest.iter().position(|b| is_blank(*b)).unwrap_or(rest.len());
    text_at(rest, Place { from: 0, to: count })
}

/// Whether a round bracket has no number before it.
fn lacks_offset(text: &[u8]) -> bool {
    match text.iter().position(|b| *b == b'(') {
        Some(at) => !is_name_byte(last_byte(&text[..at]))
            || text[..before_blanks(text, at)].iter().all(|b| *b != b','),
        None => false,
    }
}

/// Whether a register stands in a text with an upper case letter, as `X1`.
fn has_upper_register(text: &[u8]) -> bool {
    text.windows(2)
        .any(|pair| matches!(pair, [b'X', b'0'..=b'9']))
}

/// The last byte of a text that is no blank, and a space where there is none.
fn last_byte(text: &[u8]) -> u8 {
    match before_blanks(text, text.len()) {
        0 => b' ',
        end => text[end - 1],
    }
}

/// What to write for the short forms of other assemblers.
fn short_form(name: &str) -> Option<&'static str> {
    match name {
        "li" => Some(
            "there is no `li`: write `addi rd, x0, n` for n from -2048 to 2047, else `lui rd, n` and an `addi` behind it",
        ),
        "la" | "lla" => Some(
            "there is no `la`: write the address by `lui` and `addi`, or by `auipc` and `addi`",
        ),
        "call" | "tail" | "jr" => Some(
            "there is no such short form: write `jal ra, target`, `j target` or `jalr x0, 0(rs1)`",
        ),
        "beqz" | "bnez" | "blez" | "bgez" | "bltz" | "bgtz" | "bgt" | "ble" | "bgtu" | "bleu" =>
            Some(
                "there is no such short form: write `beq`, `bne`, `blt`, `bge`, `bltu` or `bgeu` with two registers, one of them `x0` if need be",
            ),
        "not" | "neg" | "seqz" | "snez" | "sltz" | "sgtz" => Some(
            "there is no such short form: write `xori rd, rs1, -1`, `sub rd, x0, rs1`, `sltiu rd, rs1, 1` or the like",
        ),
        "mul" | "mulh" | "mulhu" | "mulhsu" | "div" | "divu" | "rem" | "remu" => Some(
            "the base set has no multiplication and no division: write an instruction of the extension for it",
        ),
        _ => None,
    }
}

/// What is wrong with a line that has no form.
fn form_sentence(line: &[u8]) -> &'static str {
    let text = instruction(line);
    let name = mnemonic(text);
    if let Some(sentence) = short_form(name) {
        return sentence;
    }
    if name != ".word" && name.starts_with('.') {
        return "there is no such directive: write the program from address 0 on, and each constant as `.word n`";
    }
    if name.starts_with("//") || name.starts_with(';') {
        return "a comment begins with `#`: write that before it";
    }
    if lacks_offset(text) {
        return "the bracket has no offset before it: write one, as `lw x1, 0(x2)`";
    }
    if name.bytes().any(|b| b.is_ascii_uppercase()) || has_upper_register(text) {
        return "base instructions and registers have names in lower case: write them so, as `addi x1, x0, 5`";
    }
    "no instruction has this form: write a name and its operands between commas, as `addi x1, x0, 5`, `lw x1, 0(x2)` or one of the extension"
}

/// What is wrong with a line of an assembly source, and what to write in its place.
pub(crate) fn source_sentence(kind: &str, bytes: &[u8], line: Place) -> &'static str {
    match kind {
        "Line" => form_sentence(part(bytes, line)),
        "Label" => {
            "its label stands on an earlier line too, or its target stands nowhere: write each label once, with a `:` right behind it"
        }
        "Reach" => {
            "a number is outside of the range of its form, or an offset is odd: write one within it, or compute it in a register"
        }
        "Size" => "the program has more than 65536 words: write a shorter one",
        _ => "the source is refused: write it as docs/FORMATS.md says",
    }
}
