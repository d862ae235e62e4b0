ghost use Rattle.std.specs.Prelude.{◌≡◌, ◌∷◌, ◌&&◌, ◌||◌, nat_eq, true, false};
ghost use Rattle.ix_verilog.specs.Words.{form_of, begins as specified_begins, slash_form, sign_form, comment as comment_form};
ghost use Rattle.ix_vread.specs.Fronts.{IsFront};

use crate::scan::{Class, begins, comment, is_opening, is_space, run};
use ix_verilog::is_digit;

/// A part of a text: its length behind its first byte, and whether it is a word.
#[derive(Clone, Copy)]
pub struct Found {
    pub rest: usize,
    pub is_word: bool,
}

fn gap(rest: usize) -> Found
    ensures { result ≡ record { rest = rest; is_word = false } }
{
    Found {
        rest,
        is_word: false,
    }
}

fn word(rest: usize) -> Found
    ensures { result ≡ record { rest = rest; is_word = true } }
{
    Found {
        rest,
        is_word: true,
    }
}

/// The comment behind `/*`; without an end it is a word.
fn block(inside: &[u8]) -> Found
    ensures { IsFront comment_form 47 (42 ∷ inside.now) result.rest result.is_word }
{
    match comment(inside) {
        Some(length) => gap(length + 1),
        None => word(inside.len() + 1),
    }
}

/// The part of which `/` and this byte are the first, before the bytes `inside`.
fn slash_pair(next: u8, inside: &[u8]) -> Found
    ensures { IsFront (slash_form (next ∷ inside.now)) 47 (next ∷ inside.now) result.rest result.is_word }
{
    if next == b'/' {
        return gap(run(inside, Class::Line) + 1);
    }
    if next == b'*' {
        return block(inside);
    }
    word(0)
}

/// The part that begins with `/`, before these bytes.
fn slash(rest: &[u8]) -> Found
    ensures { IsFront (slash_form rest.now) 47 rest.now result.rest result.is_word }
{
    match rest {
        [next, inside @ ..] => slash_pair(*next, inside),
        [] => word(0),
    }
}

/// Whether `==` or `<=` stands there.
fn is_pair(first: u8, rest: &[u8]) -> bool
    ensures { result ≡ ((nat_eq first 61 || nat_eq first 60) && specified_begins 61 rest.now) }
{
    (first == b'=' || first == b'<') && begins(b'=', rest)
}

/// The part that begins with a sign, before these bytes.
fn sign(first: u8, rest: &[u8]) -> Found
    ensures { IsFront (sign_form first rest.now) first rest.now result.rest result.is_word }
{
    if first == b'/' {
        return slash(rest);
    }
    if is_pair(first, rest) {
        return word(1);
    }
    word(0)
}

/// The part that begins with a byte, before these bytes.
pub fn part(first: u8, rest: &[u8]) -> Found
    ensures { IsFront (form_of first rest.now) first rest.now result.rest result.is_word }
{
    if is_space(first) {
        return gap(0);
    }
    if is_opening(first) {
        return word(run(rest, Class::Name));
    }
    if is_digit(first) {
        return word(run(rest, Class::Number));
    }
    sign(first, rest)
}
