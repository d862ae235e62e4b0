ghost use Rattle.std.specs.Prelude.{◌≡◌, ◌<◌, length, get_or, Some, None, IfOk, IfErr, IfSome, IfNone};
ghost use Rattle.ix_tree.specs.Lexing.{Form, line_comment, comment, word, text, number, symbol, form_of};
ghost use Rattle.ix_lex.specs.declared.error.LexErr.TheVariants.{BadByte};
ghost use Rattle.ix_lex.specs.Fronts.{IsFront};
ghost use Rattle.ix_lex.specs.Openings.{opening_form};
ghost use Rattle.ix_lex.specs.Refusals.{NoPart, refusal_of, UnlessMemory};

use crate::LexErr;
use crate::number::number;
use crate::scan::{Class, comment, is_digit, is_letter, run};
use crate::symbol::symbol;
use crate::word::word;
use ix_tree::TokenKind;
use std::alloc::Global;

/// A front of bytes that is one token, white space or a comment.
#[derive(Drop)]
pub struct Front {
    pub length: usize,
    /// The token's kind, where it is one.
    pub kind: Option<TokenKind>,
}

/// What the first bytes show to begin.
#[derive(Clone, Copy)]
enum Opening {
    Space,
    Line,
    Comment,
    Word,
    Text,
    Number,
    Symbol,
    /// `/`, which begins no token.
    Slash,
}

/// What can begin at the bytes.
fn start(bytes: &[u8]) -> Opening
    requires { 0 < length bytes.now }
    ensures { form_of bytes.now ≡ opening_form result }
{
    let b = bytes[0];
    if b == b' ' || b == b'\t' || b == b'\r' || b == b'\n' {
        Opening::Space
    } else if is_letter(b) {
        Opening::Word
    } else if is_digit(b) {
        Opening::Number
    } else if b == b'"' {
        Opening::Text
    } else if b == b'/' {
        slash(bytes)
    } else {
        Opening::Symbol
    }
}

/// What can begin at the bytes, of which the first is `/`.
fn slash(bytes: &[u8]) -> Opening
    requires some { 0 < length bytes.now }
    requires slash { get_or bytes.now 0 0 ≡ 47 }
    ensures { form_of bytes.now ≡ opening_form result }
{
    if bytes.len() < 2 {
        return Opening::Slash;
    }
    match bytes[1] {
        b'/' => Opening::Line,
        b'*' => Opening::Comment,
        _ => Opening::Slash,
    }
}

/// White space, a byte at a time.
fn space() -> Front
    ensures length { result.length ≡ 1 }
    ensures kind { result.kind ≡ None }
{
    Front {
        length: 1,
        kind: None,
    }
}

/// The comment from `//` to the line's end.
fn line(bytes: &[u8]) -> Front
    requires { form_of bytes.now ≡ Some line_comment }
    ensures { IsFront line_comment bytes.now result.length result.kind }
{
    Front {
        length: 2 + run(&bytes[2..], Class::Line),
        kind: None,
    }
}

/// The comment from `/*` to `*/`.
fn closed(bytes: &[u8]) -> Option<Front>
    requires { form_of bytes.now ≡ Some comment }
    ensures some { IfSome result (λ front. IsFront comment bytes.now front.length front.kind) }
    ensures none { IfNone result (NoPart bytes.now) }
{
    let length = comment(&bytes[2..])?;
    Some(Front {
        length: 2 + length,
        kind: None,
    })
}

/// The string from `"` to `"`.
fn text(bytes: &[u8]) -> Option<Front>
    requires { form_of bytes.now ≡ Some text }
    ensures some { IfSome result (λ front. IsFront text bytes.now front.length front.kind) }
    ensures none { IfNone result (NoPart bytes.now) }
{
    let inner = run(&bytes[1..], Class::Text);
    if 1 + inner < bytes.len() && bytes[1 + inner] == b'"' {
        Some(Front {
            length: inner + 2,
            kind: Some(TokenKind::Text),
        })
    } else {
        None
    }
}

/// The literal from a digit on.
fn literal(bytes: &[u8]) -> Option<Front>
    requires { form_of bytes.now ≡ Some number }
    ensures some { IfSome result (λ front. IsFront number bytes.now front.length front.kind) }
    ensures none { IfNone result (NoPart bytes.now) }
{
    let length = run(bytes, Class::Number);
    let kind = number(&bytes[..length])?;
    Some(Front {
        length,
        kind: Some(kind),
    })
}

/// The name or reserved word, or why there is none.
fn name(alloc: Global, bytes: &[u8], at: u32) -> Result<Front, LexErr>
    requires { form_of bytes.now ≡ Some word }
    ensures ok { IfOk result (λ front. IsFront word bytes.now front.length front.kind) }
    ensures err { IfErr result (λ e. UnlessMemory e ((e ≡ BadByte at) × NoPart bytes.now)) }
{
    let length = run(bytes, Class::Name);
    if length > 64 {
        return Err(LexErr::BadByte { at });
    }
    match word(alloc, &bytes[..length]) {
        Ok(kind) => Ok(Front {
            length,
            kind: Some(kind),
        }),
        Err(_) => Err(LexErr::Memory),
    }
}

/// The longest symbol.
fn sign(bytes: &[u8]) -> Option<Front>
    requires { form_of bytes.now ≡ Some symbol }
    ensures some { IfSome result (λ front. IsFront symbol bytes.now front.length front.kind) }
    ensures none { IfNone result (NoPart bytes.now) }
{
    let found = symbol(bytes)?;
    Some(Front {
        length: found.length,
        kind: Some(TokenKind::Symbol(found.number)),
    })
}

/// The token, white space or comment that begins the bytes, which stand at `at`, or why none does.
pub fn part(alloc: Global, bytes: &[u8], at: u32) -> Result<Front, LexErr>
    requires { 0 < length bytes.now }
    ensures ok { IfOk result (λ front. (form : Form) × IsFront form bytes.now front.length front.kind) }
    ensures err { IfErr result (λ e. UnlessMemory e ((e ≡ refusal_of at (form_of bytes.now)) × NoPart bytes.now)) }
{
    match start(bytes) {
        Opening::Space => Ok(space()),
        Opening::Line => Ok(line(bytes)),
        Opening::Comment => closed(bytes).ok_or(LexErr::Unclosed { at }),
        Opening::Word => name(alloc, bytes, at),
        Opening::Text => text(bytes).ok_or(LexErr::Unclosed { at }),
        Opening::Number => literal(bytes).ok_or(LexErr::BadNumber { at }),
        Opening::Symbol => sign(bytes).ok_or(LexErr::BadByte { at }),
        Opening::Slash => Err(LexErr::BadByte { at }),
    }
}
