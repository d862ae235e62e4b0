ghost use Rattle.std.specs.Prelude.{◌≡◌, ℕ, ◌+◌, ◌*◌, ◌^◌, ◌<◌, ◌≤◌, ◌↔◌, length, get_or, take, true, IsTrue, IfNone, IfSome};
ghost use Rattle.std.specs.List.{list_all};
ghost use Rattle.ix_tree.specs.Lexing.{digit_value, base_of, IsRun, IsDigits, IsNumber};
ghost use Rattle.ix_lex.specs.Numbers.{Continues, NoTail, NoRun, NoDigits, NoNumber, IsWidth, NoWidth, IsUnsizedKind, IsSizedKind, not_tick};

use ix_bits::{Bits, Ty, least_width};
use ix_tree::TokenKind;

/// The value of a digit in the base, 2, 10 or 16.
fn digit(base: u8, c: u8) -> Option<u8>
    ensures value { result ≡ digit_value base c }
{
    let value = match c {
        b'0'..=b'9' => c - b'0',
        b'a'..=b'f' => c - b'a' + 10,
        b'A'..=b'F' => c - b'A' + 10,
        _ => return None,
    };
    if value < base { Some(value) } else { None }
}

/// The value with one more digit behind it, where it is below 2^128.
fn shifted(value: u128, base: u8, digit: u8) -> Option<u128>
    ensures some { IfSome result (λ v. v ≡ value * base + digit) }
    ensures none { IfNone result (2 ^ 128 ≤ value * base + digit) }
{
    value.checked_mul(base as u128)?.checked_add(digit as u128)
}

/// What was read of digits: their value, and whether `_` was last.
#[derive(Clone, Copy)]
struct Reading {
    value: u128,
    gap: bool,
}

/// What was read with one more byte, where digits go on so and their value is below 2^128.
fn next(base: u8, so_far: Reading, c: u8) -> Option<Reading>
    requires { 2 ≤ base }
    ensures some { IfSome result (λ r. Continues base so_far.gap so_far.value c r.gap r.value) }
    ensures none { IfNone result (NoTail base so_far.gap so_far.value c) }
{
    if c == b'_' {
        return match so_far.gap {
            true => None,
            false => Some(Reading {
                value: so_far.value,
                gap: true,
            }),
        };
    }
    let value = shifted(so_far.value, base, digit(base, c)?)?;
    Some(Reading { value, gap: false })
}

/// The value of digits that begin with this value, where it is below 2^128.
fn run_value(base: u8, first: u128, text: &[u8]) -> Option<u128>
    requires { 2 ≤ base }
    ensures some { IfSome result (λ v. IsRun base first text.now v) }
    ensures none { IfNone result (NoRun base first text.now) }
{
    let mut so_far = Reading {
        value: first,
        gap: false,
    };
    for c in text {
        so_far = next(base, so_far, *c)?;
    }
    if so_far.gap { None } else { Some(so_far.value) }
}

/// The value of digits, of which any but the first may have one `_` before it, where it is below 2^128.
fn digits(base: u8, text: &[u8]) -> Option<u128>
    requires { 2 ≤ base }
    ensures some { IfSome result (λ v. IsDigits base text.now v) }
    ensures none { IfNone result (NoDigits base text.now) }
{
    if text.is_empty() {
        return None;
    }
    let first = digit(base, text[0])?;
    run_value(base, first as u128, &text[1..])
}

/// The value as a literal without a width.
fn unsized_kind(value: u128) -> TokenKind
    ensures { IsUnsizedKind value result }
{
    let width = least_width(value);
    let ty = Ty {
        signed: false,
        width,
    };
    TokenKind::Unsized(ty, Bits { raw: value, width })
}

/// The base that the letter behind `'` stands for.
fn base_of(letter: u8) -> Option<u8>
    ensures value { result ≡ base_of letter }
{
    match letter {
        b'b' => Some(2),
        b'd' => Some(10),
        b'h' => Some(16),
        _ => None,
    }
}

/// The width of a sized literal, which does not begin with 0.
fn width(text: &[u8]) -> Option<u8>
    ensures some { IfSome result (λ w. IsWidth text.now w) }
    ensures none { IfNone result (NoWidth text.now) }
{
    if text.is_empty() || text[0] == b'0' {
        return None;
    }
    let width = digits(10, text)?;
    if width == 0 || width > 128 {
        return None;
    }
    Some(width as u8)
}

/// Whether the value has a pattern of this width, 1 to 128.
fn fits(width: u8, value: u128) -> bool
    requires { width ≤ 128 }
    ensures { IsTrue result ↔ (value < 2 ^ width) }
{
    width == 128 || value < 1u128 << width
}

/// The value as a literal of this width, where it fits.
fn sized_kind(width: u8, value: u128) -> Option<TokenKind>
    requires some { 1 ≤ width }
    requires most { width ≤ 128 }
    ensures some { IfSome result (λ kind. IsSizedKind width value kind) }
    ensures none { IfNone result (2 ^ width ≤ value) }
{
    if !fits(width, value) {
        return None;
    }
    let ty = Ty {
        signed: false,
        width,
    };
    Some(TokenKind::Sized(ty, Bits { raw: value, width }))
}

/// The literal with a width that stands before the `'` at `tick`.
fn sized(text: &[u8], tick: usize) -> Option<TokenKind>
    requires within { tick < length text.now }
    requires tick { get_or text.now tick 0 ≡ 39 }
    requires before { list_all not_tick (take tick text.now) ≡ true }
    ensures some { IfSome result (λ kind. IsNumber text.now kind) }
    ensures none { IfNone result (NoNumber text.now) }
{
    let width = width(&text[..tick])?;
    if tick + 1 == text.len() {
        return None;
    }
    let base = base_of(text[tick + 1])?;
    sized_kind(width, digits(base, &text[tick + 2..])?)
}

/// The literal without a width.
fn plain(text: &[u8]) -> Option<TokenKind>
    requires some { 0 < length text.now }
    requires plain { list_all not_tick text.now ≡ true }
    ensures some { IfSome result (λ kind. IsNumber text.now kind) }
    ensures none { IfNone result (NoNumber text.now) }
{
    if text[0] != b'0' {
        return Some(unsized_kind(digits(10, text)?));
    }
    if text.len() == 1 {
        return Some(unsized_kind(0));
    }
    match text[1] {
        b'x' => Some(unsized_kind(digits(16, &text[2..])?)),
        b'b' => Some(unsized_kind(digits(2, &text[2..])?)),
        _ => None,
    }
}

/// Where the first `'` stands, or the length.
fn tick(text: &[u8]) -> usize
    ensures within { result ≤ length text.now }
    ensures before { list_all not_tick (take result text.now) ≡ true }
    ensures tick { result < length text.now → get_or text.now result 0 ≡ 39 }
{
    for (i, c) in text.iter().enumerate() {
        if *c == b'\'' {
            return i;
        }
    }
    text.len()
}

/// The literal that is the whole text, a digit and what follows it.
pub fn number(text: &[u8]) -> Option<TokenKind>
    requires { 0 < length text.now }
    ensures some { IfSome result (λ kind. IsNumber text.now kind) }
    ensures none { IfNone result (NoNumber text.now) }
{
    let at = tick(text);
    if at < text.len() {
        sized(text, at)
    } else {
        plain(text)
    }
}
