ghost use Rattle.std.specs.Prelude.{◌<◌, ◌^◌, length};

use crate::refusals::put_unroll_error;
use crate::tree::tree_of;
use crate::tree_text::{put_spans, put_tree};
use ix_lex::lex;
use ix_tree::{Token, Tree};
use ix_unroll::unroll;
use std::alloc::{AllocError, Global};

/// Puts the tree of a text without loops in the form of `tree_text`, ` :`, and the places of its
/// statements and expressions, or the first rule of loops that it breaks, as `Bound 116 119`.
pub(crate) fn put_answer(out: &mut String, alloc: Global, bytes: &[u8]) -> Result<(), AllocError>
    requires { length bytes.now < 2 ^ 32 }
{
    match lex(alloc, bytes) {
        Ok(tokens) => put_parsed(out, alloc, tokens.as_slice()),
        Err(_) => out.push_str("no tokens"),
    }
}

/// Puts what becomes of the tokens of a text.
fn put_parsed(out: &mut String, alloc: Global, tokens: &[Token]) -> Result<(), AllocError> {
    match tree_of(alloc, tokens) {
        Ok(tree) => put_unrolled(out, alloc, tree),
        Err(_) => out.push_str("no tree"),
    }
}

/// Puts what becomes of a tree.
fn put_unrolled(out: &mut String, alloc: Global, tree: Tree) -> Result<(), AllocError> {
    match unroll(alloc, tree) {
        Ok(tree) => {
            put_tree(out, &tree)?;
            out.push_str(" :")?;
            put_spans(out, &tree)
        }
        Err(error) => put_unroll_error(out, error),
    }
}
