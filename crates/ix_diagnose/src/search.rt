ghost use Rattle.std.specs.Prelude.{◌≡◌, ◌+◌, ◌<◌, ◌≤◌, length, take, IfSome, None};
ghost use Rattle.ix_diagnose.specs.Lines.{StartsLine, line_number};
ghost use Rattle.ix_diagnose.specs.Refusals.{line_count};

use crate::place::{Place, line_end};
use crate::text::{before_blanks, behind_blanks, is_blank, part, token_end};

/// Where the line of that number starts, if the file has so many lines.
pub(crate) fn start_of_line(bytes: &[u8], number: usize) -> Option<usize>
    requires { 1 ≤ number }
    ensures within { IfSome result (λ start. start ≤ length bytes.now) }
    ensures starts { IfSome result (λ start. StartsLine bytes.now start) }
    ensures number { IfSome result (λ start. line_number bytes.now start ≡ number) }
    ensures none { result ≡ None → line_count bytes.now < number }
{
    let mut left = number - 1;
    if left == 0 {
        return Some(0);
    }
    for (i, byte) in bytes.iter().enumerate() {
        if *byte == b'\n' {
            left -= 1;
            if left == 0 {
                return Some(i + 1);
            }
        }
    }
    None
}

/// The word of that number, from 0, among the words of a text between blanks.
pub(crate) fn word_at(bytes: &[u8], number: usize) -> Option<Place> {
    let mut at = behind_blanks(bytes, 0);
    let mut left = number;
    while at < bytes.len() {
        let end = word_end(bytes, at + 1);
        if left == 0 {
            return Some(Place { from: at, to: end });
        }
        left -= 1;
        at = behind_blanks(bytes, end);
    }
    None
}

/// The next blank from a place on, or the end.
fn word_end(bytes: &[u8], at: usize) -> usize
    requires { at ≤ length bytes.now }
    ensures behind { at ≤ result }
    ensures within { result ≤ length bytes.now }
{
    match bytes[at..].iter().position(|b| is_blank(*b)) {
        Some(count) => at + count,
        None => bytes.len(),
    }
}

/// Whether a name stands at a place of an extension, with a brace behind it.
fn is_declared_at(bytes: &[u8], place: Place, name: &str) -> bool
    requires { place.to ≤ length bytes.now }
{
    part(bytes, place) == name.as_bytes()
        && bytes[behind_blanks(bytes, place.to)..].starts_with(b"{")
}

/// The place where an extension declares the instruction or the always-block of that name.
pub(crate) fn declaration(bytes: &[u8], name: &str) -> Option<Place> {
    let mut at = 0;
    while at < bytes.len() {
        let place = Place {
            from: at,
            to: token_end(bytes, at),
        };
        if is_declared_at(bytes, place, name) {
            return Some(place);
        }
        at = place.to;
    }
    None
}

/// A text without the blanks, the quotes and the brackets at both ends.
fn bare(key: &[u8]) -> &[u8] {
    let Some(start) = key.iter().position(|b| !is_around(*b)) else {
        return &[];
    };
    let rest = &key[start..];
    match rest.iter().rposition(|b| !is_around(*b)) {
        Some(last) => &rest[..last + 1],
        None => rest,
    }
}

fn is_around(byte: u8) -> bool {
    is_blank(byte) || matches!(byte, b'"' | b'\'' | b'[' | b']')
}

/// Whether a key of a datasheet, or one of its parts between points, is this name.
fn has_name(key: &[u8], name: &str) -> bool {
    bare(key) == name.as_bytes()
        || key
            .split(|b| *b == b'.')
            .any(|part| bare(part) == name.as_bytes())
}

/// The key of a line of a datasheet, or its header.
fn key_of(bytes: &[u8], line: Place) -> Place {
    let text = part(bytes, line);
    let count = text
        .iter()
        .position(|b| matches!(*b, b'=' | b'#'))
        .unwrap_or(text.len());
    let key = &text[..count];
    let start = behind_blanks(key, 0);
    let end = before_blanks(key, count);
    Place {
        from: line.from.saturating_add(start),
        to: line.from.saturating_add(end.max(start)),
    }
}

/// The first key or header of that name in a datasheet, from a place on.
pub(crate) fn key_from(bytes: &[u8], from: usize, name: &str) -> Option<Place> {
    let mut at = from;
    while at < bytes.len() {
        let end = line_end(bytes, at);
        let key = key_of(bytes, Place { from: at, to: end });
        if has_name(part(bytes, key), name) {
            return Some(key);
        }
        at = end + 1;
    }
    None
}
