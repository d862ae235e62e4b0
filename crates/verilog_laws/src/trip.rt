ghost use Rattle.std.specs.Prelude.{◌≡◌, ◌≤◌, ◌^◌, length, All, IfOk, MatchOption};
ghost use Rattle.std.specs.List.{flat_map};
ghost use Rattle.ix_net.specs.Valid.{IsValid};
ghost use Rattle.ix_verilog.specs.Subset.{AreNamedApart};
ghost use Rattle.ix_vprint.specs.Printed.{module_text};

use ix_bits::{List, Memory};
use ix_net::Net;
use ix_vprint::print;
use ix_vread::{VErr, read};
use std::alloc::Global;

/// The length, in bytes, from which on a text is not read.
const TOO_LONG: usize = 0x1_0000_0000;

/// What is read of what is printed of valid nets whose names differ: the nets; None where their text has 2^32 bytes or more.
pub fn read_printed(alloc: Global, nets: &[Net]) -> Result<Option<List<Net>>, Memory>
    requires valid { All IsValid nets.now }
    requires apart { AreNamedApart nets.now }
    ensures { IfOk result (λ o. MatchOption o (2 ^ 32 ≤ length (flat_map module_text nets.now)) (λ again. again ≡ nets.now)) }
{
    let text = print(alloc, nets)?;
    if text.len() >= TOO_LONG {
        return Ok(None);
    }
    match read(alloc, text.as_slice()) {
        Ok(again) => Ok(Some(again)),
        Err(VErr::Memory) => Err(Memory),
        Err(VErr::At { byte: _ }) => unreachable!(),
        Err(VErr::Width { line: _ }) => unreachable!(),
        Err(VErr::Loop { name: _ }) => unreachable!(),
        Err(VErr::Twice { name: _ }) => unreachable!(),
    }
}
