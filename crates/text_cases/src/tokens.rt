ghost use Rattle.std.specs.Prelude.{◌<◌, ◌^◌, length};

use crate::refusals::put_lex_error;
use ix_lex::lex;
use ix_tree::{Token, TokenKind};
use std::alloc::{AllocError, Global};

/// Puts what a token is.
fn put_kind(out: &mut String, kind: &TokenKind) -> Result<(), AllocError> {
    match kind {
        TokenKind::Name(_) => out.push_str("name"),
        TokenKind::Text => out.push_str("string"),
        TokenKind::Unsized(ty, bits) => write!(out, "unsized {} {}", ty.width, bits.raw),
        TokenKind::Sized(ty, bits) => write!(out, "sized {} {}", ty.width, bits.raw),
        TokenKind::Word(number) => write!(out, "word {number}"),
        TokenKind::Symbol(number) => write!(out, "symbol {number}"),
    }
}

/// Puts tokens, one after another.
fn put_tokens(out: &mut String, tokens: &[Token]) -> Result<(), AllocError> {
    let mut comma = "";
    for token in tokens {
        out.push_str(comma)?;
        put_kind(out, &token.kind)?;
        write!(out, " {} {}", token.span.from, token.span.to)?;
        comma = ", ";
    }
    Ok(())
}

/// Puts the tokens of a text with their places, as `name 0 3, sized 5 31 4 9`, or why it has
/// none, as `BadNumber 4`. Literals have their width and their value, reserved words and symbols
/// their numbers.
pub(crate) fn put_answer(out: &mut String, alloc: Global, bytes: &[u8]) -> Result<(), AllocError>
    requires { length bytes.now < 2 ^ 32 }
{
    match lex(alloc, bytes) {
        Ok(tokens) => put_tokens(out, tokens.as_slice()),
        Err(error) => put_lex_error(out, error),
    }
}
