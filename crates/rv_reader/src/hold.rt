ghost use Rattle.std.specs.Prelude.{◌≡◌, ℕ};
ghost use Rattle.rv_reader.specs.Rows.{closed_in, one_in, pair_in, register_hold_in, serial_hold_in, small_hold_in, hold_in};

use crate::word::{behind, below, is, serial, small, split};
use ix_plan::Target;
use rv_trace::Hold;

/// The serial before the bracket that ends a text.
fn closed_serial(text: &[u8]) -> Option<u32>
    ensures { result ≡ closed_in 4294967295 text.now }
{
    let (digits, end) = split(text, b')');
    if end.len() != 1 {
        return None;
    }
    serial(digits)
}

/// A serial behind a front, in brackets.
fn one(word: &[u8], front: &[u8]) -> Option<u32>
    ensures { result ≡ one_in front.now 4294967295 word.now }
{
    let Some(rest) = behind(word, front) else {
        return None;
    };
    closed_serial(rest)
}

/// A number of 8 bits behind a front, in brackets.
fn few(word: &[u8], front: &[u8]) -> Option<u8>
    ensures { result ≡ one_in front.now 255 word.now }
{
    let Some(rest) = behind(word, front) else {
        return None;
    };
    let (digits, end) = split(rest, b')');
    if end.len() != 1 {
        return None;
    }
    small(digits)
}

/// A register of so many and a serial behind a front, in brackets.
fn pair(word: &[u8], front: &[u8], count: usize) -> Option<(u8, u32)>
    ensures { result ≡ pair_in front.now count word.now }
{
    let Some(rest) = behind(word, front) else {
        return None;
    };
    let (digits, end) = split(rest, b',');
    let Some(number) = below(digits, count) else {
        return None;
    };
    let Some(serial) = one(end, b",") else {
        return None;
    };
    Some((number, serial))
}

/// A hold that names a register and a serial.
#[tactic(auto, unfolding(crate::specs::Rows::register_hold_in))]
fn register_hold(word: &[u8], count: usize) -> Option<Hold>
    ensures { result ≡ register_hold_in count word.now }
{
    if let Some((number, serial)) = pair(word, b"Operand(x", 32) {
        return Some(Hold::Operand(number, serial));
    }
    if let Some((number, serial)) = pair(word, b"Board(x", 32) {
        return Some(Hold::Board(Target::X(number), serial));
    }
    if let Some((number, serial)) = pair(word, b"Board(c", count) {
        return Some(Hold::Board(Target::Custom(number), serial));
    }
    if let Some((number, serial)) = pair(word, b"Custom(c", count) {
        return Some(Hold::Custom(number, serial));
    }
    None
}

/// A hold that names a serial.
#[tactic(auto, unfolding(crate::specs::Rows::serial_hold_in))]
fn serial_hold(word: &[u8]) -> Option<Hold>
    ensures { result ≡ serial_hold_in word.now }
{
    if let Some(serial) = one(word, b"Late(") {
        return Some(Hold::Late(serial));
    }
    if let Some(serial) = one(word, b"Drain(") {
        return Some(Hold::Drain(serial));
    }
    if let Some(serial) = one(word, b"StoreAhead(") {
        return Some(Hold::StoreAhead(serial));
    }
    if let Some(serial) = one(word, b"Port(") {
        return Some(Hold::Port(serial));
    }
    None
}

/// A hold that names a number of rows or a unit.
#[tactic(auto, unfolding(crate::specs::Rows::small_hold_in))]
fn small_hold(word: &[u8]) -> Option<Hold>
    ensures { result ≡ small_hold_in word.now }
{
    if let Some(number) = few(word, b"Wait(") {
        return Some(Hold::Wait(number));
    }
    if let Some(number) = few(word, b"Tail(") {
        return Some(Hold::Tail(number));
    }
    if let Some(number) = few(word, b"UnitFull(") {
        return Some(Hold::UnitFull(number));
    }
    None
}

/// The hold that a word names, with so many custom registers.
#[tactic(auto, unfolding(crate::specs::Rows::hold_in))]
pub fn hold(word: &[u8], count: usize) -> Option<Hold>
    ensures { result ≡ hold_in count word.now }
{
    if is(word, b"Behind") {
        return Some(Hold::Behind);
    }
    if let Some(hold) = register_hold(word, count) {
        return Some(hold);
    }
    if let Some(hold) = serial_hold(word) {
        return Some(hold);
    }
    small_hold(word)
}
