ghost use Rattle.std.specs.Prelude.{◌≡◌, ◌≤◌, ◌++◌, length, map, string_bytes, OnOk, IfOk, slice_range, replicate};
ghost use Rattle.ix_diagnose.specs.Shown.{TellsAt, shown_byte, gap_byte, excerpt};

use crate::place::{Place, line_end, line_number, line_start};
use std::alloc::{AllocError, Global};

/// The most bytes of a line that are shown before a place, and from it on.
const ROOM: usize = 120;

/// The character that a byte is shown as: itself, or `?` where it is not visible.
fn shown(byte: u8) -> char
    ensures { result ≡ shown_byte byte }
{
    match byte {
        b'\t' | b' '..=b'~' => char::from(byte),
        _ => '?',
    }
}

/// What stands under a byte before the carets.
fn gap(byte: u8) -> char
    ensures { result ≡ gap_byte byte }
{
    if byte == b'\t' { '\t' } else { ' ' }
}

fn put_shown(out: &mut String, part: &[u8]) -> Result<(), AllocError>
    ensures { OnOk result (string_bytes out.new ≡ string_bytes out.old ++ map shown_byte part.now) }
{
    for byte in part {
        out.push(shown(*byte))?;
    }
    Ok(())
}

fn put_gap(out: &mut String, part: &[u8]) -> Result<(), AllocError>
    ensures { OnOk result (string_bytes out.new ≡ string_bytes out.old ++ map gap_byte part.now) }
{
    for byte in part {
        out.push(gap(*byte))?;
    }
    Ok(())
}

fn put_carets(out: &mut String, count: usize) -> Result<(), AllocError>
    ensures { OnOk result (string_bytes out.new ≡ string_bytes out.old ++ replicate count 94) }
{
    for _ in 0..count {
        out.push('^')?;
    }
    Ok(())
}

/// Appends the line of a place, and carets under the place.
fn put_excerpt(
    out: &mut String,
    bytes: &[u8],
    start: usize,
    end: usize,
    place: Place,
) -> Result<(), AllocError>
    requires ordered { start ≤ place.from }
    requires before { place.from ≤ end }
    requires within { end ≤ length bytes.now }
    ensures { OnOk result (string_bytes out.new ≡ string_bytes out.old ++ excerpt bytes.now start end place.from place.to) }
{
    let first = start.max(place.from.saturating_sub(ROOM));
    let last = end.min(place.from.saturating_add(ROOM));
    put_shown(out, &bytes[first..last])?;
    out.push_str("\n")?;
    put_gap(out, &bytes[first..place.from])?;
    put_carets(out, place.to.min(last).saturating_sub(place.from).max(1))?;
    out.push_str("\n")
}

/// Tells what is wrong at a place of a file: the file, the line and the column, the sentence, the
/// line, and carets under the place.
pub fn tell_at(
    alloc: Global,
    name: &str,
    bytes: &[u8],
    place: Place,
    sentence: &str,
) -> Result<String, AllocError>
    requires { place.from ≤ length bytes.now }
    ensures { IfOk result (λ text. TellsAt name.now bytes.now place.from place.to (string_bytes text)) }
{
    let start = line_start(bytes, place.from);
    let end = line_end(bytes, place.from);
    let line = line_number(bytes, start);
    let column = place.from - start + 1;
    let mut text = format!(in alloc; "{name}:{line}:{column}: error: {sentence}\n")?;
    put_excerpt(&mut text, bytes, start, end, place)?;
    Ok(text)
}
