ghost use Rattle.std.specs.Prelude.{◌≡◌, ◌+◌, ◌<◌, ◌≤◌, length};

use crate::place::{Place, line_end};

pub(crate) fn is_blank(byte: u8) -> bool {
    matches!(byte, b' ' | b'\t' | b'\r' | b'\n')
}

pub(crate) fn is_name_byte(byte: u8) -> bool {
    byte.is_ascii_alphanumeric() || byte == b'_'
}

/// The bytes of a place, as far as the file goes.
pub(crate) fn part(bytes: &[u8], place: Place) -> &[u8] {
    let end = place.to.min(bytes.len());
    &bytes[place.from.min(end)..end]
}

/// The bytes of a place as a text, which is empty where they are none.
pub(crate) fn text_at(bytes: &[u8], place: Place) -> &str {
    str::from_utf8(part(bytes, place)).unwrap_or("")
}

/// The place behind the blanks that stand there.
pub(crate) fn behind_blanks(bytes: &[u8], at: usize) -> usize
    requires { at ≤ length bytes.now }
    ensures behind { at ≤ result }
    ensures within { result ≤ length bytes.now }
{
    match bytes[at..].iter().position(|b| !is_blank(*b)) {
        Some(count) => at + count,
        None => bytes.len(),
    }
}

/// The place before the blanks that end there.
pub(crate) fn before_blanks(bytes: &[u8], at: usize) -> usize
    requires { at ≤ length bytes.now }
    ensures { result ≤ at }
{
    match bytes[..at].iter().rposition(|b| !is_blank(*b)) {
        Some(last) => last + 1,
        None => 0,
    }
}

/// The first byte of the name that ends there.
fn name_start(bytes: &[u8], end: usize) -> usize
    requires { end ≤ length bytes.now }
    ensures { result ≤ end }
{
    match bytes[..end].iter().rposition(|b| !is_name_byte(*b)) {
        Some(last) => last + 1,
        None => 0,
    }
}

/// The place behind the name that stands there.
pub(crate) fn name_end(bytes: &[u8], at: usize) -> usize
    requires { at ≤ length bytes.now }
    ensures behind { at ≤ result }
    ensures within { result ≤ length bytes.now }
{
    match bytes[at..].iter().position(|b| !is_name_byte(*b)) {
        Some(count) => at + count,
        None => bytes.len(),
    }
}

/// The name before a place, with blanks between; it is empty where another byte stands there.
pub(crate) fn name_before(bytes: &[u8], at: usize) -> Place
    requires { at ≤ length bytes.now }
    ensures ordered { result.from ≤ result.to }
    ensures before { result.to ≤ at }
{
    let to = before_blanks(bytes, at);
    Place {
        from: name_start(bytes, to),
        to,
    }
}

/// The last byte before a place that is no blank, and a line feed where there is none.
pub(crate) fn byte_before(bytes: &[u8], at: usize) -> u8
    requires { at ≤ length bytes.now }
{
    match before_blanks(bytes, at) {
        0 => b'\n',
        end => bytes[end - 1],
    }
}

/// The place behind the comment whose text starts there.
fn comment_end(bytes: &[u8], at: usize) -> usize
    requires { at ≤ length bytes.now }
    ensures behind { at ≤ result }
    ensures within { result ≤ length bytes.now }
{
    match bytes[at..]
        .windows(2)
        .position(|pair| pair == b"*/".as_slice())
    {
        Some(count) => at.saturating_add(count).saturating_add(2).min(bytes.len()),
        None => bytes.len(),
    }
}

/// The place behind the string whose text starts there.
fn string_end(bytes: &[u8], at: usize) -> usize
    requires { at ≤ length bytes.now }
    ensures behind { at ≤ result }
    ensures within { result ≤ length bytes.now }
{
    match bytes[at..].iter().position(|b| *b == b'"') {
        Some(count) => at + count + 1,
        None => bytes.len(),
    }
}

/// The place behind the comment, the string, the name or the single byte that stands there.
pub(crate) fn token_end(bytes: &[u8], at: usize) -> usize
    requires { at < length bytes.now }
    ensures behind { at < result }
    ensures within { result ≤ length bytes.now }
{
    match &bytes[at..] {
        [b'/', b'/', ..] => line_end(bytes, at + 1),
        [b'/', b'*', ..] => comment_end(bytes, at + 2),
        [b'"', ..] => string_end(bytes, at + 1),
        [byte, ..] if is_name_byte(*byte) => name_end(bytes, at + 1),
        _ => at + 1,
    }
}
