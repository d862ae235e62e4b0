ghost use Rattle.std.specs.Prelude.{◌≡◌, ◌++◌, ◌^◌, ◌<◌, length, List, IfOk, IfErr, OnOk};
ghost use Rattle.ix_tree.specs.declared.token.Token.{Token};
ghost use Rattle.ix_tree.specs.Lexing.{Lexes};
ghost use Rattle.ix_lex.specs.Refusals.{IsRefusal, UnlessMemory};
ghost use Rattle.ix_lex.specs.Fronts.{kept};

use crate::LexErr;
use crate::part::{Front, part};
use ix_bits::{List, Memory};
use ix_tree::{Span, Token};
use std::alloc::Global;

/// The tokens of a text of fewer than 2^32 bytes, or the first place where none begins.
pub fn lex(alloc: Global, bytes: &[u8]) -> Result<List<Token>, LexErr>
    requires { length bytes.now < 2 ^ 32 }
    ensures tokens { IfOk result (λ tokens. Lexes bytes.now tokens) }
    ensures refusal { IfErr result (λ e. UnlessMemory e (IsRefusal bytes.now e)) }
    ensures excludes { IfErr result (λ e. UnlessMemory e ((tokens : List Token) → Lexes bytes.now tokens → ⊥)) }
{
    let mut tokens = List::new(alloc);
    let mut at = 0;
    while at < bytes.len() {
        let front = match part(alloc, &bytes[at..], at as u32) {
            Ok(front) => front,
            Err(error) => return Err(error),
        };
        let to = at + front.length;
        match keep(&mut tokens, front, at as u32, to as u32) {
            Ok(()) => at = to,
            Err(_) => return Err(LexErr::Memory),
        }
    }
    Ok(tokens)
}

/// Puts the part behind the tokens where it is one.
fn keep(tokens: &mut List<Token>, front: Front, from: u32, to: u32) -> Result<(), Memory>
    ensures { OnOk result (tokens.new ≡ tokens.old ++ kept from to front.kind) }
{
    match front.kind {
        Some(kind) => tokens.push(Token {
            kind,
            span: Span { from, to },
        }),
        None => Ok(()),
    }
}
