ghost use Rattle.std.specs.Prelude.{◌≡◌, ◌++◌, ◌^◌, ◌<◌, length, IfOk, OnOk};
ghost use Rattle.ix_verilog.specs.Words.{Spells};
ghost use Rattle.ix_vread.specs.Fronts.{tokens_if};

use crate::part::part;
use ix_bits::{List, Memory};
use ix_verilog::Token;
use std::alloc::Global;

/// Puts the part behind the tokens where it is a word.
fn keep(
    alloc: Global,
    tokens: &mut List<Token>,
    is_word: bool,
    place: u32,
    bytes: &[u8],
) -> Result<(), Memory>
    ensures { OnOk result (tokens.new ≡ tokens.old ++ tokens_if is_word place bytes.now) }
{
    if is_word {
        let word = List::from_slice(alloc, bytes)?;
        tokens.push(Token { place, word })
    } else {
        Ok(())
    }
}

/// The words of a text of fewer than 2^32 bytes.
pub fn words_in(alloc: Global, bytes: &[u8]) -> Result<List<Token>, Memory>
    requires { length bytes.now < 2 ^ 32 }
    ensures { IfOk result (λ tokens. Spells 0 bytes.now tokens) }
{
    let mut tokens = List::new(alloc);
    let mut at = 0;
    while at < bytes.len() {
        let found = part(bytes[at], &bytes[at + 1..]);
        let to = at + 1 + found.rest;
        keep(alloc, &mut tokens, found.is_word, at as u32, &bytes[at..to])?;
        at = to;
    }
    Ok(tokens)
}
