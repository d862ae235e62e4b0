ghost use Rattle.std.specs.Prelude.{◌≡◌, ◌≤◌, length, All, codes};
ghost use Rattle.rv_reader.specs.Writes.{is_address_behind, is_pc_line as specified_is_pc_line, is_x_line as specified_is_x_line, is_custom_line as specified_is_custom_line, is_target as specified_is_target, is_outstanding_line as specified_is_outstanding_line, is_memory_line as specified_is_memory_line, group_of as specified_group_of, group_of_letter, is_in_group as specified_is_in_group};

use crate::word::{address, behind, below, split};
use crate::write::{behind_address, behind_serial, value};

/// Whether a text is an address or a word behind a front.
fn is_address_line(text: &[u8], front: &[u8]) -> bool
    ensures { result ≡ is_address_behind front.now text.now }
{
    match behind(text, front) {
        Some(word) => address(word).is_some(),
        None => false,
    }
}

/// Whether a line is that of the pc of a state.
#[tactic(auto, unfolding(crate::specs::Writes::is_pc_line))]
pub fn is_pc_line(line: &[u8]) -> bool
    ensures { result ≡ specified_is_pc_line line.now }
{
    is_address_line(line, b"pc ")
}

#[tactic(auto, unfolding(crate::specs::Writes::is_x_line))]
fn is_x_line(line: &[u8]) -> bool
    ensures { result ≡ specified_is_x_line line.now }
{
    let Some(rest) = behind(line, b"x") else {
        return false;
    };
    let (digits, left) = split(rest, b' ');
    if below(digits, 32).is_none() {
        return false;
    }
    is_address_line(left, b" ")
}

#[tactic(auto, unfolding(crate::specs::Writes::is_custom_line))]
fn is_custom_line(line: &[u8], widths: &[u8]) -> bool
    requires narrow { All (λ w. w ≤ 128) widths.now }
    ensures { result ≡ specified_is_custom_line widths.now line.now }
{
    let Some(rest) = behind(line, b"c") else {
        return false;
    };
    let (digits, left) = split(rest, b' ');
    let Some(number) = below(digits, widths.len()) else {
        return false;
    };
    match behind(left, b" ") {
        Some(word) => value(word, widths[number as usize]).is_some(),
        None => false,
    }
}

/// Whether a word names an x register or one of so many custom ones.
#[tactic(auto, unfolding(crate::specs::Writes::is_target))]
fn is_target(word: &[u8], count: usize) -> bool
    ensures { result ≡ specified_is_target count word.now }
{
    if let Some(digits) = behind(word, b"x") {
        return below(digits, 32).is_some();
    }
    match behind(word, b"c") {
        Some(digits) => below(digits, count).is_some(),
        None => false,
    }
}

#[tactic(auto, unfolding(crate::specs::Writes::is_outstanding_line))]
fn is_outstanding_line(line: &[u8], count: usize) -> bool
    ensures { result ≡ specified_is_outstanding_line count line.now }
{
    let Some(rest) = behind_serial(line, b"o ") else {
        return false;
    };
    match behind(rest, b" ") {
        Some(word) => is_target(word, count),
        None => false,
    }
}

#[tactic(auto, unfolding(crate::specs::Writes::is_memory_line))]
fn is_memory_line(line: &[u8]) -> bool
    ensures { result ≡ specified_is_memory_line line.now }
{
    match behind_address(line, b"m ") {
        Some(rest) => is_address_line(rest, b" "),
        None => false,
    }
}

/// The group of a line of a state by its first byte: x registers, custom registers, outstanding
/// writes, memory, from 1.
pub fn group_of(line: &[u8]) -> u8
    ensures { result ≡ specified_group_of line.now }
{
    match line {
        [first, ..] => group_of_byte(*first),
        [] => 0,
    }
}

fn group_of_byte(byte: u8) -> u8
    ensures { result ≡ group_of_letter byte }
{
    match byte {
        b'x' => 1,
        b'c' => 2,
        b'o' => 3,
        b'm' => 4,
        _ => 0,
    }
}

/// Whether a line is in form in its group.
pub fn is_in_group(line: &[u8], group: u8, widths: &[u8]) -> bool
    requires narrow { All (λ w. w ≤ 128) widths.now }
    ensures { result ≡ specified_is_in_group widths.now group line.now }
{
    match group {
        1 => is_x_line(line),
        2 => is_custom_line(line, widths),
        3 => is_outstanding_line(line, widths.len()),
        4 => is_memory_line(line),
        _ => false,
    }
}
