ghost use Rattle.std.specs.Prelude.{◌≡◌, ◌==◌, ◌<◌, ◌≤◌, ℕ, List, Option, length, map, option_map, slice_index_or, [], IfOk, IfSome};
ghost use Rattle.std.specs.List.{position, list_all, slice_split};
ghost use Rattle.ix_tree.specs.Lexing.{is_letter as specified_is_letter, is_name_byte as specified_is_name_byte};
ghost use Rattle.rv_asm_text.specs.Lines.{lines_of, is_blank as specified_is_blank, without_blanks, without_last_blanks, trimmed as specified_trimmed, before_first, from_first, content_of, is_name as specified_is_name, label_end as specified_label_end, label_of, instruction_of, name_of, operands_of, opened as specified_opened, indexed_of};

use ix_bits::Memory;
use std::alloc::{AllocError, Global};

fn is_blank(b: u8) -> bool
    ensures { result ≡ specified_is_blank b }
{
    b == b' ' || b == b'\t' || b == b'\r'
}

fn trim_start(text: &[u8]) -> &[u8]
    ensures { result.now ≡ without_blanks text.now }
{
    let mut text = text;
    while let [first, rest @ ..] = text {
        if !is_blank(*first) {
            break;
        }
        text = rest;
    }
    text
}

fn trim_end(text: &[u8]) -> &[u8]
    ensures { result.now ≡ without_last_blanks text.now }
{
    let mut text = text;
    while let [rest @ .., last] = text {
        if !is_blank(*last) {
            break;
        }
        text = rest;
    }
    text
}

/// A text without the blanks at both ends: spaces, tabs and carriage returns.
pub fn trimmed(text: &[u8]) -> &[u8]
    ensures { result.now ≡ specified_trimmed text.now }
{
    trim_end(trim_start(text))
}

/// The lines of a text, which line feeds part.
pub fn lines(alloc: Global, bytes: &[u8]) -> Result<Vec<&[u8]>, AllocError>
    ensures { IfOk result (λ lines. map (λ line. line.now) lines.items ≡ lines_of bytes.now) }
{
    bytes.split(|b| *b == b'\n').collect(alloc)
}

fn parts(alloc: Global, text: &[u8]) -> Result<Vec<&[u8]>, AllocError>
    ensures { IfOk result (λ parts. map (λ part. part.now) parts.items ≡ slice_split (λ b. b == 44) text.now) }
{
    text.split(|b| *b == b',').collect(alloc)
}

fn hash_at(line: &[u8]) -> Option<usize>
    ensures value { result ≡ position (λ b. b == 35) line.now }
    ensures below { IfSome result (λ k. k < length line.now) }
{
    line.iter().position(|b| *b == b'#')
}

fn colon_at(text: &[u8]) -> Option<usize>
    ensures value { result ≡ position (λ b. b == 58) text.now }
    ensures below { IfSome result (λ k. k < length text.now) }
{
    text.iter().position(|b| *b == b':')
}

fn bracket_at(text: &[u8]) -> Option<usize>
    ensures value { result ≡ position (λ b. b == 40) text.now }
    ensures below { IfSome result (λ k. k < length text.now) }
{
    text.iter().position(|b| *b == b'(')
}

fn blank_at(text: &[u8]) -> Option<usize>
    ensures value { result ≡ position specified_is_blank text.now }
    ensures below { IfSome result (λ k. k < length text.now) }
{
    text.iter().position(|b| is_blank(*b))
}

/// A line without its comment and without blanks at both ends.
fn content(line: &[u8]) -> &[u8]
    ensures { result.now ≡ content_of line.now }
{
    match hash_at(line) {
        None => trimmed(line),
        Some(k) => trimmed(&line[..k]),
    }
}

fn is_letter(b: u8) -> bool
    ensures { result ≡ specified_is_letter b }
{
    b.is_ascii_alphabetic() || b == b'_'
}

fn is_name_byte(b: u8) -> bool
    ensures { result ≡ specified_is_name_byte b }
{
    is_letter(b) || b.is_ascii_digit()
}

fn are_name_bytes(bytes: &[u8]) -> bool
    ensures { result ≡ list_all specified_is_name_byte bytes.now }
{
    bytes.iter().all(|b| is_name_byte(*b))
}

/// Whether a text is a name: a letter or `_`, then letters, digits and `_`, at most 64 bytes.
pub fn is_name(text: &[u8]) -> bool
    ensures { result ≡ specified_is_name text.now }
{
    let Some((first, rest)) = text.split_first() else {
        return false;
    };
    if !is_letter(*first) {
        return false;
    }
    if rest.len() > 63 {
        return false;
    }
    are_name_bytes(rest)
}

/// Where the colon stands that ends a label.
fn label_end(text: &[u8]) -> Option<usize>
    ensures value { result ≡ specified_label_end text.now }
    ensures below { IfSome result (λ k. k < length text.now) }
{
    match colon_at(text) {
        None => None,
        Some(k) => { if is_name(&text[..k]) { Some(k) } else { None } }
    }
}

/// The label of a line.
#[tactic(auto, unfolding(crate::specs::Lines::label_of))]
pub fn label(line: &[u8]) -> Option<&[u8]>
    ensures { option_map (λ name. name.now) result ≡ label_of line.now }
{
    let text = content(line);
    match label_end(text) {
        None => None,
        Some(k) => Some(&text[..k]),
    }
}

/// The instruction of a line, without blanks at both ends; empty where there is none.
#[tactic(auto, unfolding(crate::specs::Lines::instruction_of))]
pub fn instruction(line: &[u8]) -> &[u8]
    ensures { result.now ≡ instruction_of line.now }
{
    let text = content(line);
    match label_end(text) {
        None => text,
        Some(k) => trim_start(&text[k + 1..]),
    }
}

/// The name of an instruction: what stands before the first blank.
#[tactic(auto, unfolding(crate::specs::Lines::name_of))]
pub fn name(text: &[u8]) -> &[u8]
    ensures { result.now ≡ name_of text.now }
{
    match blank_at(text) {
        None => text,
        Some(k) => &text[..k],
    }
}

fn behind_name(text: &[u8]) -> &[u8]
    ensures { result.now ≡ without_blanks (from_first specified_is_blank text.now) }
{
    match blank_at(text) {
        None => &[],
        Some(k) => trim_start(&text[k..]),
    }
}

/// The operands behind the name of an instruction, which commas part.
#[tactic(auto, unfolding(crate::specs::Lines::operands_of))]
pub fn operands(alloc: Global, text: &[u8]) -> Result<Vec<&[u8]>, Memory>
    ensures { IfOk result (λ operands. map (λ operand. operand.now) operands.items ≡ operands_of text.now) }
{
    let text = behind_name(text);
    if text.is_empty() {
        return Ok(Vec::new(alloc));
    }
    let parts = parts(alloc, text)?;
    let mut operands = Vec::new(alloc);
    for part in &parts {
        operands.push(trimmed(part))?;
    }
    Ok(operands)
}

/// An operand `n(r)`: what stands before the bracket, and what stands in it.
#[tactic(auto, unfolding(crate::specs::Lines::indexed_of))]
pub fn indexed(operand: &[u8]) -> Option<(&[u8], &[u8])>
    ensures { option_map (λ parts. (parts.0.now, parts.1.now)) result ≡ indexed_of operand.now }
{
    let Some((last, front)) = operand.split_last() else {
        return None;
    };
    if *last != b')' {
        return None;
    }
    match bracket_at(front) {
        None => None,
        Some(k) => Some((trim_end(&front[..k]), trimmed(&front[k + 1..]))),
    }
}
