ghost use Rattle.std.specs.Prelude.{◌≡◌, ◌↔◌, ◌≤◌, IsTrue, MatchOption, decimal, Contains};
ghost use Rattle.std.specs.List.{list_all};
ghost use Rattle.ix_verilog.specs.Words.{is_digit as specified_is_digit};
ghost use Rattle.ix_verilog.specs.Lines.{is_hex_digit as specified_is_hex_digit, AreDigits, IsNumber, IsLiteral, operators};
ghost use Rattle.ix_verilog.specs.Subset.{IsShortName};
ghost use Rattle.ix_vline.specs.Slots.{IsHighest};
ghost use Rattle.ix_vform.specs.Based.{IsBased};

use ix_bits::Name;
use ix_verilog::{is_digit, leading_digits, name_in, place_in};

/// The signs between two operands.
const OPERATORS: [&[u8]; 8] = [b"+", b"-", b"*", b"&", b"|", b"^", b"==", b"<"];

/// Whether a word is a sign that stands between two operands.
pub fn is_operator(word: &[u8]) -> bool
    ensures { IsTrue result ↔ Contains operators word.now }
{
    OPERATORS.contains(&word)
}

/// Whether a word is a name of at most 80 bytes.
pub fn is_short_name(word: &[u8]) -> bool
    ensures { IsTrue result ↔ IsShortName word.now }
{
    match name_in(word) {
        Some(text) => text.len() <= Name::MOST,
        None => false,
    }
}

fn is_hex_digit(byte: u8) -> bool
    ensures { result ≡ specified_is_hex_digit byte }
{
    byte.is_ascii_digit() || (byte >= b'a' && byte <= b'f')
}

fn are_digits(word: &[u8]) -> bool
    ensures { result ≡ list_all specified_is_digit word.now }
{
    for byte in word {
        if !is_digit(*byte) {
            return false;
        }
    }
    true
}

fn are_hex_digits(word: &[u8]) -> bool
    ensures { result ≡ list_all specified_is_hex_digit word.now }
{
    for byte in word {
        if !is_hex_digit(*byte) {
            return false;
        }
    }
    true
}

/// Whether a word is `0`, or decimal digits that do not begin with 0.
pub fn is_number(word: &[u8]) -> bool
    ensures { IsTrue result ↔ IsNumber word.now }
{
    match word {
        [first, rest @ ..] => is_digit(*first)
            && are_digits(rest)
            && (*first != b'0' || rest.is_empty()),
        [] => false,
    }
}

fn is_hex_number(word: &[u8]) -> bool
    ensures { IsTrue result ↔ AreDigits specified_is_hex_digit word.now }
{
    match word {
        [first, rest @ ..] => is_hex_digit(*first)
            && are_hex_digits(rest)
            && (*first != b'0' || rest.is_empty()),
        [] => false,
    }
}

/// Whether the bytes are `'h` and digits.
fn is_based(bytes: &[u8]) -> bool
    ensures { IsTrue result ↔ IsBased bytes.now }
{
    match bytes {
        [quote, base, number @ ..] => *quote == b'\'' && *base == b'h' && is_hex_number(number),
        _ => false,
    }
}

/// Whether a word is a width, `'h` and digits, as `8'h2a`.
pub fn is_literal(word: &[u8]) -> bool
    ensures { IsTrue result ↔ IsLiteral word.now }
{
    let (width, rest) = word.split_at(leading_digits(word));
    if is_number(width) {
        return is_based(rest);
    }
    false
}

/// The number of the highest bit of a width of 1 to 128 bits, in decimal digits without leading zeros.
pub fn highest(word: &[u8]) -> Option<u8>
    ensures { MatchOption result (IsHighest word.now → ⊥) (λ n. (n ≤ 127) × (word.now ≡ decimal n)) }
{
    place_in(word)
}
