ghost use Rattle.std.specs.Prelude.{◌≡◌, ◌≢◌, ◌≤◌, length, IfOk, IsUtf8};
ghost use Rattle.std.specs.List.{list_all};
ghost use Rattle.ix_cert.specs.Layout.{Line, IsName, IsKindName, mode_text, is_letter as specified_is_letter, is_name_byte as specified_is_name_byte};
ghost use Rattle.ix_cert.specs.Items.{IsRegister, IsPlainKind};
ghost use Rattle.ix_lines.specs.Readings.{IsReading, Tells, IsAny};

use ix_bits::{Memory, Name};
use ix_graph::{Mode, kind_number};
use ix_lines::{behind, is_label, number};
use std::alloc::Global;

fn is_letter(byte: u8) -> bool
    ensures { result ≡ specified_is_letter byte }
{
    byte.is_ascii_alphabetic() || byte == b'_'
}

fn is_name_byte(byte: u8) -> bool
    ensures { result ≡ specified_is_name_byte byte }
{
    is_letter(byte) || byte.is_ascii_digit()
}

fn are_name_bytes(word: &[u8]) -> bool
    ensures { result ≡ list_all specified_is_name_byte word.now }
{
    for byte in word {
        if !is_name_byte(*byte) {
            return false;
        }
    }
    true
}

/// Whether a word is a name: a letter or `_`, then at most 63 letters, digits and `_`.
pub fn is_name(word: &[u8]) -> bool
    ensures { Tells result (IsName word.now) }
{
    match word {
        [first, rest @ ..] => is_letter(*first) && rest.len() <= 63 && are_name_bytes(rest),
        [] => false,
    }
}

fn is_register(word: &[u8]) -> bool
    ensures { Tells result (IsRegister word.now) }
{
    number(word, 15).is_some()
}

/// Whether a word is the name of a kind without a register.
fn is_plain_kind(word: &[u8]) -> bool
    ensures { Tells result (IsPlainKind word.now) }
{
    let Ok(text) = str::from_utf8(word) else {
        return false;
    };
    let Some(place) = kind_number(text) else {
        return false;
    };
    is_unregistered(place)
}

fn is_unregistered(place: u8) -> bool
    ensures { Tells result ((place ≢ 4) × (place ≢ 8)) }
{
    place != 4 && place != 8
}

/// Whether a word is the printed name of a kind; a register has a number from 0 to 15.
pub fn is_kind(word: &[u8]) -> bool
    ensures { Tells result (IsKindName word.now) }
{
    if let Some(register) = behind(word, b"RdCustReg.") {
        return is_register(register);
    }
    if let Some(register) = behind(word, b"WrCustReg.") {
        return is_register(register);
    }
    is_plain_kind(word)
}

/// The mode that a word names; `none` is no mode.
pub fn mode(word: &[u8]) -> Option<Option<Mode>>
    ensures { IsReading IsAny mode_text word.now result }
{
    if is_label(word, b"none") {
        return Some(None);
    }
    if is_label(word, b"InPipeline") {
        return Some(Some(Mode::InPipeline));
    }
    if is_label(word, b"Tight") {
        return Some(Some(Mode::Tight));
    }
    if is_label(word, b"Decoupled") {
        return Some(Some(Mode::Decoupled));
    }
    if is_label(word, b"Always") {
        return Some(Some(Mode::Always));
    }
    None
}

/// The name with these bytes.
pub fn name(alloc: Global, word: &[u8]) -> Result<Name, Memory>
    requires short { length word.now ≤ 80 }
    requires text { IsUtf8 word.now }
    ensures { IfOk result (λ name. name ≡ word.now) }
{
    match str::from_utf8(word) {
        Ok(text) => Name::from_text(alloc, text),
        Err(_) => unreachable!(),
    }
}
