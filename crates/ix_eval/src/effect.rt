ghost use Rattle.std.specs.Prelude.{◌≡◌, ◌/◌, option_map};
ghost use Rattle.ix_bits.specs.Operators.{pattern_of};
ghost use Rattle.ix_mean.specs.Core.{u32 as word_type};
ghost use Rattle.ix_mean.specs.View.{seen};
ghost use Rattle.ix_mean.specs.Given.{write_seen};
ghost use Rattle.ix_eval.specs.Readings.{reading_seen};
ghost use Rattle.ix_eval.specs.Sizes.{sized};
ghost use Rattle.ix_eval.specs.Evaluated.{access_of, bits_written, pattern_written, store_of, read_of};

use crate::access::Access;
use crate::reading::Reading;
use ix_bits::{Bits, Ty, Value, cast};
use ix_mean::Written;

/// What an instruction or an always-block writes, and what it reads of memory.
#[derive(Clone, Copy)]
pub struct Effect {
    pub rd: Option<u32>,
    pub pc: Option<u32>,
    pub custom: [Option<Bits>; 16],
    pub load: Option<Access>,
    pub store: Option<(Access, u32)>,
}

// The pattern of a number in 32 bits.
fn word(value: Value) -> u32
    ensures { result ≡ pattern_of 32 (seen value) }
{
    let word = Ty {
        signed: false,
        width: 32,
    };
    cast(value.ty, word, value.bits).raw as u32
}

/// So many bytes from an address on: 1, 2, or else 4.
pub fn sized_access(bytes: u8, at: u32) -> Access
    ensures { result ≡ sized bytes at }
{
    match bytes {
        1 => Access { at, bytes: 1 },
        2 => Access { at, bytes: 2 },
        _ => Access { at, bytes: 4 },
    }
}

// The bytes of a type from an address on.
fn bytes_from(ty: Ty, at: Value) -> Access
    ensures { result ≡ access_of ty (seen at) }
{
    sized_access(ty.width / 8, word(at))
}

/// What is written to a target, as a word.
pub(crate) fn written_word(target: Option<Written>) -> Option<u32>
    ensures { result ≡ option_map (pattern_written word_type) (option_map write_seen target) }
{
    match target {
        None => None,
        Some(written) => Some(word(written.value)),
    }
}

/// What is written to a target, as a pattern of its type.
pub(crate) fn written_bits(ty: Ty, target: Option<Written>) -> Option<Bits>
    ensures { result ≡ option_map (bits_written ty) (option_map write_seen target) }
{
    match target {
        None => None,
        Some(written) => Some(cast(written.value.ty, ty, written.value.bits)),
    }
}

/// What is stored, of a type.
pub(crate) fn stored(ty: Ty, target: Option<Written>) -> Option<(Access, u32)>
    ensures { result ≡ option_map (store_of ty) (option_map write_seen target) }
{
    match target {
        None => None,
        Some(written) => Some((bytes_from(ty, written.address), word(written.value))),
    }
}

/// What is loaded.
pub(crate) fn loaded(reading: Option<Reading>) -> Option<Access>
    ensures { result ≡ option_map read_of (option_map reading_seen reading) }
{
    match reading {
        None => None,
        Some(reading) => Some(bytes_from(reading.ty, reading.at)),
    }
}
