ghost use Rattle.std.specs.Prelude.{◌≡◌, ◌<◌, ◌≤◌, length, slice_get, Some, true, IfOk};
ghost use Rattle.std.specs.List.{list_all};
ghost use Rattle.std.specs.List.{position};
ghost use Rattle.ix_tree.specs.Tokens.{words};
ghost use Rattle.ix_tree.specs.Lexing.{same_bytes, word_kind, is_name_byte};

use crate::table::entry;
use ix_bits::{Memory, Name};
use ix_tree::{TokenKind, WORDS};
use std::alloc::Global;

/// The bytes of a reserved word.
fn word_bytes(n: u8) -> &'static [u8]
    requires { n < 24 }
    ensures { slice_get words n ≡ Some result.now }
{
    entry(&WORDS, n)
}

/// Whether the bytes are the same.
fn same(a: &[u8], b: &[u8]) -> bool
    ensures { result ≡ same_bytes a.now b.now }
{
    a == b
}

/// The number of the reserved word with these bytes.
fn reserved(bytes: &[u8]) -> Option<u8>
    ensures { result ≡ position (λ w. same_bytes w bytes.now) words }
{
    for n in 0u8..24 {
        if same(word_bytes(n), bytes) {
            return Some(n);
        }
    }
    None
}

/// The reserved word or the name with these bytes.
pub fn word(alloc: Global, bytes: &[u8]) -> Result<TokenKind, Memory>
    requires short { length bytes.now ≤ 64 }
    requires inside { list_all is_name_byte bytes.now ≡ true }
    ensures { IfOk result (λ kind. kind ≡ word_kind bytes.now) }
{
    if let Some(n) = reserved(bytes) {
        return Ok(TokenKind::Word(n));
    }
    match std::str::from_utf8(bytes) {
        Ok(text) => Ok(TokenKind::Name(Name::from_text(alloc, text)?)),
        Err(_) => unreachable!(),
    }
}
