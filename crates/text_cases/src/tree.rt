ghost use Rattle.std.specs.Prelude.{◌<◌, ◌^◌, length};

use crate::refusals::put_lex_error;
use crate::tree_text::put_tree;
use ix_lex::lex;
use ix_parse::{ParseErr, parse};
use ix_tree::{Token, Tree};
use std::alloc::{AllocError, Global};

/// Past the greatest count of tokens that a text may have.
const TOO_MANY: usize = 0x1_0000_0000;

/// The count of tokens from which on prefixes are left out.
const MANY: usize = 1000;

/// The tree of tokens, or why they have none; more tokens than there may be are refused as
/// `Memory`.
pub(crate) fn tree_of(alloc: Global, tokens: &[Token]) -> Result<Tree, ParseErr> {
    if tokens.len() >= TOO_MANY {
        return Err(ParseErr::Memory);
    }
    parse(alloc, tokens)
}

/// Puts the tree of a text, or why it has none. A text that has no tokens is `lex BadByte N`,
/// `lex Unclosed N` or `lex BadNumber N`, and one that has no tree `At N` or `Deep N`.
///
/// A tree is printed in the form of `tree_text`. Where it has fewer than 1,000 tokens,
/// ` prefixes refused` says that each proper prefix of them is refused at a token of its own or
/// at its end; else ` prefix K: ..` says what becomes of the first that is not.
pub(crate) fn put_answer(out: &mut String, alloc: Global, bytes: &[u8]) -> Result<(), AllocError>
    requires { length bytes.now < 2 ^ 32 }
{
    match lex(alloc, bytes) {
        Ok(tokens) => put_parsed(out, alloc, tokens.as_slice()),
        Err(error) => {
            out.push_str("lex ")?;
            put_lex_error(out, error)
        }
    }
}

/// Puts why tokens have no tree.
fn put_parse_error(out: &mut String, error: ParseErr) -> Result<(), AllocError> {
    match error {
        ParseErr::At { token } => write!(out, "At {token}"),
        ParseErr::Deep { token } => write!(out, "Deep {token}"),
        ParseErr::Memory => out.push_str("Memory"),
    }
}

/// Puts the tree of the tokens, or why there is none.
fn put_parsed(out: &mut String, alloc: Global, tokens: &[Token]) -> Result<(), AllocError> {
    match tree_of(alloc, tokens) {
        Ok(tree) => {
            put_tree(out, &tree)?;
            put_prefixes(out, alloc, tokens)
        }
        Err(error) => put_parse_error(out, error),
    }
}

/// Puts what becomes of the proper prefixes of the tokens of a whole text.
fn put_prefixes(out: &mut String, alloc: Global, tokens: &[Token]) -> Result<(), AllocError> {
    if tokens.len() >= MANY {
        return Ok(());
    }
    for count in 0..tokens.len() {
        let told = tree_of(alloc, &tokens[..count]).err();
        if !is_refused(&told, count) {
            return put_prefix(out, count, &told);
        }
    }
    out.push_str(" prefixes refused")
}

/// Whether tokens of that count are refused at one of them or at their end.
fn is_refused(told: &Option<ParseErr>, count: usize) -> bool {
    match told {
        Some(ParseErr::At { token }) => *token as usize <= count,
        _ => false,
    }
}

/// Puts what becomes of a prefix of that many tokens.
fn put_prefix(out: &mut String, count: usize, told: &Option<ParseErr>) -> Result<(), AllocError> {
    write!(out, " prefix {count}: ")?;
    match told {
        None => out.push_str("ok"),
        Some(error) => put_parse_error(out, *error),
    }
}
