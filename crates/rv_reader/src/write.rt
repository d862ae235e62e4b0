ghost use Rattle.std.specs.Prelude.{◌≡◌, ℕ, ◌≤◌, List, Option, Some, None, MatchOption, length};
ghost use Rattle.rv_reader.specs.Writes.{value_in, is_value as specified_is_value, behind_value as specified_behind_value, x_in, custom_in, customs_in, is_stored as specified_is_stored, store_in, is_next as specified_is_next, registers_in, serial_behind, address_behind, is_retired_line as specified_is_retired_line, is_written_line as specified_is_written_line};
ghost use Rattle.std.specs.Prelude.{All};

use crate::word::{address, behind, below, digits, is, serial, small, split};

/// A value of so many bits in the digits that it needs.
#[tactic(auto, unfolding(crate::specs::Writes::value_in))]
pub fn value(word: &[u8], width: u8) -> Option<u128>
    requires { width ≤ 128 }
    ensures { result ≡ value_in width word.now }
{
    let count = (width as usize + 3) / 4;
    let Some(value) = digits(word, count) else {
        return None;
    };
    if width < 128 && value >= 1u128 << width {
        return None;
    }
    Some(value)
}

fn is_value(word: &[u8], late: bool, width: u8) -> bool
    requires { width ≤ 128 }
    ensures { result ≡ specified_is_value late width word.now }
{
    (late && is(word, b"later")) || value(word, width).is_some()
}

/// What stands behind an equals sign and a value.
fn behind_value(text: &[u8], late: bool, width: u8) -> Option<&[u8]>
    requires { width ≤ 128 }
    ensures { MatchOption result (specified_behind_value late width text.now ≡ None) (λ rest. specified_behind_value late width text.now ≡ Some rest.now) }
{
    let Some(rest) = behind(text, b"=") else {
        return None;
    };
    let (word, left) = split(rest, b' ');
    if is_value(word, late, width) {
        Some(left)
    } else {
        None
    }
}

/// What stands behind at most one x register.
#[tactic(auto, unfolding(crate::specs::Writes::x_in))]
fn behind_x(text: &[u8], late: bool) -> Option<&[u8]>
    ensures { MatchOption result (x_in late text.now ≡ None) (λ rest. x_in late text.now ≡ Some rest.now) }
{
    let Some(rest) = behind(text, b" x") else {
        return Some(text);
    };
    let (digits, left) = split(rest, b'=');
    if below(digits, 32).is_none() {
        return None;
    }
    behind_value(left, late, 32)
}

/// What stands behind the custom register of this number, if it stands next.
#[tactic(auto, unfolding(crate::specs::Writes::custom_in))]
fn behind_custom(text: &[u8], late: bool, number: u8, width: u8) -> Option<&[u8]>
    requires { width ≤ 128 }
    ensures { MatchOption result (custom_in late number width text.now ≡ None) (λ rest. custom_in late number width text.now ≡ Some rest.now) }
{
    let Some(rest) = behind(text, b" c") else {
        return Some(text);
    };
    let (digits, left) = split(rest, b'=');
    let Some(found) = small(digits) else {
        return None;
    };
    if found != number {
        return Some(text);
    }
    behind_value(left, late, width)
}

/// What stands behind custom registers, ascending, by their widths.
fn behind_customs<'a>(text: &'a [u8], late: bool, widths: &[u8]) -> Option<&'a [u8]>
    requires few { length widths.now ≤ 255 }
    requires narrow { All (λ w. w ≤ 128) widths.now }
    ensures { MatchOption result (customs_in late 0 widths.now text.now ≡ None) (λ rest. customs_in late 0 widths.now text.now ≡ Some rest.now) }
{
    let mut left = text;
    for (k, width) in widths.iter().enumerate() {
        match behind_custom(left, late, k as u8, *width) {
            Some(rest) => left = rest,
            None => return None,
        }
    }
    Some(left)
}

fn is_stored(word: &[u8]) -> bool
    ensures { result ≡ specified_is_stored word.now }
{
    digits(word, 2).is_some() || digits(word, 4).is_some() || digits(word, 8).is_some()
}

/// What stands behind at most one store.
#[tactic(auto, unfolding(crate::specs::Writes::store_in))]
fn behind_store(text: &[u8]) -> Option<&[u8]>
    ensures { MatchOption result (store_in text.now ≡ None) (λ rest. store_in text.now ≡ Some rest.now) }
{
    let Some(rest) = behind(text, b" m") else {
        return Some(text);
    };
    let (digits, left) = split(rest, b'=');
    if address(digits).is_none() {
        return None;
    }
    let Some(value) = behind(left, b"=") else {
        return None;
    };
    let (word, more) = split(value, b' ');
    if is_stored(word) { Some(more) } else { None }
}

/// Whether a text is empty or the next pc.
#[tactic(auto, unfolding(crate::specs::Writes::is_next))]
fn is_next(text: &[u8]) -> bool
    ensures { result ≡ specified_is_next text.now }
{
    if text.is_empty() {
        return true;
    }
    match behind(text, b" pc=") {
        Some(word) => address(word).is_some(),
        None => false,
    }
}

/// What stands behind registers that are written.
#[tactic(auto, unfolding(crate::specs::Writes::registers_in))]
fn behind_registers<'a>(text: &'a [u8], late: bool, widths: &[u8]) -> Option<&'a [u8]>
    requires few { length widths.now ≤ 255 }
    requires narrow { All (λ w. w ≤ 128) widths.now }
    ensures { MatchOption result (registers_in late widths.now text.now ≡ None) (λ rest. registers_in late widths.now text.now ≡ Some rest.now) }
{
    match behind_x(text, late) {
        Some(rest) => behind_customs(rest, late, widths),
        None => None,
    }
}

/// What stands behind a front and a serial.
#[tactic(auto, unfolding(crate::specs::Writes::serial_behind))]
pub fn behind_serial<'a>(text: &'a [u8], front: &[u8]) -> Option<&'a [u8]>
    ensures { MatchOption result (serial_behind front.now text.now ≡ None) (λ rest. serial_behind front.now text.now ≡ Some rest.now) }
{
    let Some(rest) = behind(text, front) else {
        return None;
    };
    let (digits, left) = split(rest, b' ');
    if serial(digits).is_some() {
        Some(left)
    } else {
        None
    }
}

/// What stands behind a front and an address or a word.
#[tactic(auto, unfolding(crate::specs::Writes::address_behind))]
pub fn behind_address<'a>(text: &'a [u8], front: &[u8]) -> Option<&'a [u8]>
    ensures { MatchOption result (address_behind front.now text.now ≡ None) (λ rest. address_behind front.now text.now ≡ Some rest.now) }
{
    let Some(rest) = behind(text, front) else {
        return None;
    };
    let (digits, left) = split(rest, b' ');
    if address(digits).is_some() {
        Some(left)
    } else {
        None
    }
}

/// Whether a line is that of a retirement.
#[tactic(auto, unfolding(crate::specs::Writes::is_retired_line))]
pub fn is_retired_line(line: &[u8], widths: &[u8]) -> bool
    requires few { length widths.now ≤ 255 }
    requires narrow { All (λ w. w ≤ 128) widths.now }
    ensures { result ≡ specified_is_retired_line widths.now line.now }
{
    let Some(behind_number) = behind_serial(line, b"= ") else {
        return false;
    };
    let Some(behind_at) = behind_address(behind_number, b" ") else {
        return false;
    };
    let Some(behind_word) = behind_address(behind_at, b" ") else {
        return false;
    };
    let Some(rest) = behind_registers(behind_word, true, widths) else {
        return false;
    };
    match behind_store(rest) {
        Some(next) => is_next(next),
        None => false,
    }
}

/// Whether a line is that of outstanding writes that are made.
#[tactic(auto, unfolding(crate::specs::Writes::is_written_line))]
pub fn is_written_line(line: &[u8], widths: &[u8]) -> bool
    requires few { length widths.now ≤ 255 }
    requires narrow { All (λ w. w ≤ 128) widths.now }
    ensures { result ≡ specified_is_written_line widths.now line.now }
{
    let Some(behind_number) = behind_serial(line, b"+ ") else {
        return false;
    };
    match behind_registers(behind_number, false, widths) {
        Some(rest) => rest.is_empty(),
        None => false,
    }
}
