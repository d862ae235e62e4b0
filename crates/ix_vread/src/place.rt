ghost use Rattle.std.specs.Prelude.{◌≡◌, ◌+◌, ◌<◌, ◌≤◌, ◌^◌, length, map, filter, slice_index_or, drop, IfOk};
ghost use Rattle.ix_vnets.specs.Drives.{drives};
ghost use Rattle.ix_vread.specs.Told.{line_at as specified_line, begins_drive as specified_begins};
ghost use Rattle.ix_vread.specs.Spots.{drive_place as specified_place};

use ix_bits::Memory;
use ix_verilog::{Source, Token};
use std::alloc::Global;

/// Whether a word is one with which a line of widths begins.
fn begins_drive(token: &Token) -> bool
    ensures { result ≡ specified_begins token.now }
{
    let word = token.word.as_slice();
    word == b"assign".as_slice() || word == b"if".as_slice()
}

/// The places of the words with which lines of widths begin.
fn places_in(alloc: Global, tokens: &[Token]) -> Result<Vec<u32>, Memory>
    ensures { IfOk result (λ v. v.items ≡ map (λ t. t.place) (filter specified_begins tokens.now)) }
{
    let mut places = Vec::new(alloc);
    for token in tokens {
        if begins_drive(token) {
            places.push(token.place)?;
        }
    }
    Ok(places)
}

/// What stands behind so many places.
fn behind(places: &[u32], count: usize) -> &[u32]
    ensures { result.now ≡ drop count places.now }
{
    if count <= places.len() {
        &places[count..]
    } else {
        &places[places.len()..]
    }
}

/// What stands behind the lines of modules.
fn behind_modules<'a>(places: &'a [u32], modules: &[Source]) -> &'a [u32]
    ensures { result.now ≡ drop (length (drives modules.now)) places.now }
{
    let mut rest = places;
    for source in modules {
        rest = behind(rest, source.assigns.len());
        rest = behind(rest, source.updates.len());
    }
    rest
}

/// A place by number; 0 where there is none.
fn place_at(places: &[u32], number: usize) -> u32
    ensures { result ≡ slice_index_or places.now number 0 }
{
    match places.get(number) {
        Some(place) => *place,
        None => 0,
    }
}

/// Where a line of widths begins, behind those of modules.
pub(crate) fn drive_place(
    alloc: Global,
    tokens: &[Token],
    modules: &[Source],
    drive: usize,
) -> Result<u32, Memory>
    ensures { IfOk result (λ place. place ≡ specified_place tokens.now (length (drives modules.now) + drive)) }
{
    let places = places_in(alloc, tokens)?;
    Ok(place_at(behind_modules(&places, modules), drive))
}

/// The line of a place, from 1.
pub(crate) fn line_at(bytes: &[u8], place: u32) -> u32
    requires within { place ≤ length bytes.now }
    requires small { place + 1 < 2 ^ 32 }
    ensures { result ≡ specified_line bytes.now place }
{
    let mut line = 1;
    for byte in &bytes[..place as usize] {
        if *byte == b'\n' {
            line += 1;
        }
    }
    line
}
