ghost use Rattle.std.specs.Prelude.{◌≡◌, ◌+◌, ◌<◌, ◌≤◌, length, slice_get, Some, IfSome, IfNone, IsTrue, ◌↔◌};
ghost use Rattle.ix_tree.specs.Tokens.{symbols};
ghost use Rattle.ix_tree.specs.Lexing.{BeginsWith};
ghost use Rattle.ix_lex.specs.Symbols.{IsLongest, NoSymbol};

use crate::table::entry;
use ix_tree::SYMBOLS;

/// A symbol at the front of bytes: its number, and its length, which is 0 where there is none.
#[derive(Clone, Copy)]
pub struct Found {
    pub number: u8,
    pub length: usize,
}

/// The bytes of a symbol.
fn symbol_bytes(n: u8) -> &'static [u8]
    requires { n < 40 }
    ensures { slice_get symbols n ≡ Some result.now }
{
    entry(&SYMBOLS, n)
}

/// Whether the bytes begin with these.
fn begins(bytes: &[u8], front: &[u8]) -> bool
    ensures { IsTrue result ↔ BeginsWith front.now bytes.now }
{
    bytes.starts_with(front)
}

/// The longer of what was found and of symbol n, if that begins the bytes.
fn longer(bytes: &[u8], best: Found, n: u8) -> Found
    requires some { n < 40 }
    requires best { IsLongest bytes.now n best.number best.length }
    ensures { IsLongest bytes.now (n + 1) result.number result.length }
{
    let text = symbol_bytes(n);
    if best.length < text.len() && begins(bytes, text) {
        return Found {
            number: n,
            length: text.len(),
        };
    }
    best
}

/// The longest symbol that begins the bytes.
pub fn symbol(bytes: &[u8]) -> Option<Found>
    ensures some { IfSome result (λ found. (0 < found.length) × IsLongest bytes.now 40 found.number found.length) }
    ensures none { IfNone result (NoSymbol bytes.now) }
{
    let mut best = Found {
        number: 0,
        length: 0,
    };
    for n in 0u8..40 {
        best = longer(bytes, best, n);
    }
    if best.length == 0 { None } else { Some(best) }
}
