ghost use Rattle.std.specs.Prelude.{◌≡◌, ◌==◌, [], IfOk};
ghost use Rattle.std.specs.List.{slice_split};
ghost use Rattle.ix_lines.specs.Readings.{IsParted, IsCounted, IsLabelled, Tells, texts};

use crate::word::{is_label, number};
use std::alloc::{AllocError, Global};

/// The parts of a text between the bytes of this value.
pub fn parts(alloc: Global, bytes: &[u8], by: u8) -> Result<Vec<&[u8]>, AllocError>
    ensures { IfOk result (λ parts. texts parts.items ≡ slice_split (λ b. b == by) bytes.now) }
{
    bytes.split(|byte| *byte == by).collect(alloc)
}

/// The first word, and those behind it.
pub fn parted<'a, 'b>(words: &'a [&'b [u8]]) -> Option<(&'b [u8], &'a [&'b [u8]])>
    ensures { IsParted (texts words.now) result }
{
    match words {
        [first, rest @ ..] => Some((*first, rest)),
        [] => None,
    }
}

pub fn is_end(words: &[&[u8]]) -> bool
    ensures { Tells result (texts words.now ≡ []) }
{
    words.is_empty()
}

/// The first word as a number of at most `most`, and the words behind it.
pub fn counted<'a, 'b>(words: &'a [&'b [u8]], most: u64) -> Option<(u64, &'a [&'b [u8]])>
    ensures { IsCounted most (texts words.now) result }
{
    let Some((first, rest)) = parted(words) else {
        return None;
    };
    match number(first, most) {
        Some(number) => Some((number, rest)),
        None => None,
    }
}

/// The number behind a label, at most `most`, and the words behind it.
pub fn labelled<'a, 'b>(
    words: &'a [&'b [u8]],
    label: &[u8],
    most: u64,
) -> Option<(u64, &'a [&'b [u8]])>
    ensures { IsLabelled label.now most (texts words.now) result }
{
    let Some((first, rest)) = parted(words) else {
        return None;
    };
    if !is_label(first, label) {
        return None;
    }
    counted(rest, most)
}
