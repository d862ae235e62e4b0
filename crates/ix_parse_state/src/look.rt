ghost use Rattle.std.specs.Prelude.{◌≡◌, ◌+◌, ◌<◌, ◌≤◌, true, IfOk, IfErr};
ghost use Rattle.ix_tree.specs.declared.token.TokenKind.TheVariants.{Word, Symbol};
ghost use Rattle.ix_tree.specs.Machine.{State, go, is, only};
ghost use Rattle.ix_parse_state.specs.Moves.{StopsBy};

use crate::stop::Stop;
use ix_bits::{Memory, Name};
use ix_tree::{Token, TokenKind};
use std::alloc::Global;

/// The greatest nesting of a token.
pub const MOST_NESTING: u32 = 64;

/// Whether the token is the symbol of that number.
pub fn is_symbol(token: &Token, number: u8) -> bool
    ensures { result ≡ is token.now.kind (Symbol number) }
{
    match &token.kind {
        TokenKind::Symbol(n) => *n == number,
        _ => false,
    }
}

/// Whether the token is the reserved word of that number.
pub fn is_word(token: &Token, number: u8) -> bool
    ensures { result ≡ is token.now.kind (Word number) }
{
    match &token.kind {
        TokenKind::Word(n) => *n == number,
        _ => false,
    }
}

/// The nesting of a token that stands so much deeper than a production.
pub fn nest(depth: u32, more: u32) -> Result<u32, Stop>
    ensures ok { IfOk result (λ m. (m ≡ depth + more) × (m ≤ 64)) }
    ensures err { IfErr result (λ e. (z : State) → StopsBy e (go (depth + more) z)) }
{
    let nesting = depth.saturating_add(more);
    if nesting > MOST_NESTING {
        return Err(Stop::Deep);
    }
    Ok(nesting)
}

/// The nesting of a token that stands as deep as a production.
pub fn level(depth: u32) -> Result<u32, Stop>
    ensures ok { IfOk result (λ m. (m ≡ depth) × (m ≤ 64)) }
    ensures err { IfErr result (λ e. (z : State) → StopsBy e (go depth z)) }
{
    if depth > MOST_NESTING {
        return Err(Stop::Deep);
    }
    Ok(depth)
}

/// The nesting of a token that has to be a symbol, and stands so much deeper than a production.
pub fn expect(token: &Token, symbol: u8, depth: u32, more: u32) -> Result<u32, Stop>
    ensures symbol { IfOk result (λ _. is token.now.kind (Symbol symbol) ≡ true) }
    ensures ok { IfOk result (λ m. (m ≡ depth + more) × (m ≤ 64)) }
    ensures err { IfErr result (λ e. (z : State) → StopsBy e (only (is token.now.kind (Symbol symbol)) (depth + more) z)) }
{
    if !is_symbol(token, symbol) {
        return Err(Stop::Refused);
    }
    nest(depth, more)
}

/// A copy of the token.
pub fn copy(alloc: Global, token: &Token) -> Result<Token, Memory>
    ensures { IfOk result (λ t. t ≡ token.now) }
{
    let kind = match &token.kind {
        TokenKind::Name(name) => TokenKind::Name(Name::from_text(alloc, name.as_str())?),
        TokenKind::Text => TokenKind::Text,
        TokenKind::Unsized(ty, bits) => TokenKind::Unsized(*ty, *bits),
        TokenKind::Sized(ty, bits) => TokenKind::Sized(*ty, *bits),
        TokenKind::Word(n) => TokenKind::Word(*n),
        TokenKind::Symbol(n) => TokenKind::Symbol(*n),
    };
    Ok(Token {
        kind,
        span: token.span,
    })
}
