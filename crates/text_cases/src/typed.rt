ghost use Rattle.std.specs.Prelude.{◌<◌, ◌^◌, length};

use crate::refusals::{lex_refusal, put_place, put_unroll_error};
use crate::tree::tree_of;
use ix_check::{CheckErr, check};
use ix_lex::{LexErr, lex};
use ix_parse::ParseErr;
use ix_tree::{Span, Token, Tree};
use ix_unroll::unroll;
use std::alloc::{AllocError, Global};

/// Puts `typed`, or the first refusal of a text and where it stands, as `Narrow 116 119`. The
/// place of a byte that begins no token stands twice, and at the end of a text so does its
/// length.
pub(crate) fn put_answer(out: &mut String, alloc: Global, bytes: &[u8]) -> Result<(), AllocError>
    requires { length bytes.now < 2 ^ 32 }
{
    let end = bytes.len() as u32;
    match lex(alloc, bytes) {
        Ok(tokens) => put_parsed(out, alloc, end, tokens.as_slice()),
        Err(error) => put_lex_place(out, error),
    }
}

/// Puts what becomes of the tokens of a text with that many bytes.
fn put_parsed(
    out: &mut String,
    alloc: Global,
    end: u32,
    tokens: &[Token],
) -> Result<(), AllocError> {
    match tree_of(alloc, tokens) {
        Ok(tree) => put_unrolled(out, alloc, tree),
        Err(ParseErr::At { token }) => put_place(out, "At", place(tokens, token, end)),
        Err(ParseErr::Deep { token }) => put_place(out, "Deep", place(tokens, token, end)),
        Err(ParseErr::Memory) => out.push_str("Memory"),
    }
}

/// The place of a token, or of the end of the text.
fn place(tokens: &[Token], token: u32, end: u32) -> Span {
    match tokens.get(token as usize) {
        Some(token) => token.span,
        None => Span { from: end, to: end },
    }
}

/// Puts what becomes of a tree.
fn put_unrolled(out: &mut String, alloc: Global, tree: Tree) -> Result<(), AllocError> {
    match unroll(alloc, tree) {
        Ok(tree) => put_checked(out, alloc, tree),
        Err(error) => put_unroll_error(out, error),
    }
}

/// Puts what becomes of a tree without loops.
fn put_checked(out: &mut String, alloc: Global, tree: Tree) -> Result<(), AllocError> {
    match check(alloc, tree) {
        Ok(_) => out.push_str("typed"),
        Err(error) => put_check_error(out, error),
    }
}

/// Puts why a text has no tokens, with the place of the byte.
fn put_lex_place(out: &mut String, error: LexErr) -> Result<(), AllocError> {
    match lex_refusal(error) {
        Some((word, at)) => put_place(out, word, Span { from: at, to: at }),
        None => out.push_str("Memory"),
    }
}

/// Puts why a tree is refused.
fn put_check_error(out: &mut String, error: CheckErr) -> Result<(), AllocError> {
    match error {
        CheckErr::Unknown { span } => put_place(out, "Unknown", span),
        CheckErr::Twice { span } => put_place(out, "Twice", span),
        CheckErr::Narrow { span } => put_place(out, "Narrow", span),
        CheckErr::TooWide { span } => put_place(out, "TooWide", span),
        CheckErr::Mixed { span } => put_place(out, "Mixed", span),
        CheckErr::Range { span } => put_place(out, "Range", span),
        CheckErr::Index { span } => put_place(out, "Index", span),
        CheckErr::ReadAfterWrite { span } => put_place(out, "ReadAfterWrite", span),
        CheckErr::DoubleWrite { span } => put_place(out, "DoubleWrite", span),
        CheckErr::SecondAccess { span } => put_place(out, "SecondAccess", span),
        CheckErr::InSpawn { span } => put_place(out, "InSpawn", span),
        CheckErr::Rom { span } => put_place(out, "Rom", span),
        CheckErr::Memory => out.push_str("Memory"),
    }
}
