ghost use Rattle.std.specs.Prelude.{◌≡◌, ◌<◌, ◌^◌, [], length, IfOk, IfErr};
ghost use Rattle.ix_verilog.specs.Words.{Spells};
ghost use Rattle.ix_verilog.specs.Subset.{IsWritten, place_of_token};
ghost use Rattle.ix_vnets.specs.Names.{AllOnce, said};
ghost use Rattle.ix_vread.specs.Told.{IsTold, IsDoubled};

use crate::error::VErr;
use crate::words::words_in;
use ix_bits::List;
use ix_verilog::{Source, Token};
use ix_vnets::first_twice;
use ix_vparse::{ParseErr, modules_in};
use std::alloc::Global;

/// The place of a token by number, in bytes, or the end of the text.
fn place_of(tokens: &[Token], number: usize, end: u32) -> u32
    ensures { result ≡ place_of_token end number tokens.now }
{
    match tokens.get(number) {
        Some(token) => token.place,
        None => end,
    }
}

/// The modules that the words of a text are, in their order. It has fewer than 2^32 bytes.
fn written_in(alloc: Global, bytes: &[u8], tokens: &[Token]) -> Result<List<Source>, VErr>
    requires small { length bytes.now < 2 ^ 32 }
    requires spelled { Spells 0 bytes.now tokens.now }
    ensures written { IfOk result (IsWritten bytes.now) }
    ensures refused { IfErr result (IsTold bytes.now) }
{
    match modules_in(alloc, tokens) {
        Ok(modules) => Ok(modules),
        Err(ParseErr::At { word }) => Err(VErr::At {
            byte: place_of(tokens, word, bytes.len() as u32),
        }),
        Err(ParseErr::Memory) => Err(VErr::Memory),
    }
}

/// The modules, where no name in them stands twice.
fn once(alloc: Global, modules: List<Source>) -> Result<List<Source>, VErr>
    ensures same { IfOk result (λ sources. (sources ≡ modules) × AllOnce (said [] modules)) }
    ensures twice { IfErr result (IsDoubled modules) }
{
    match first_twice(alloc, modules.as_slice()) {
        Ok(Some(name)) => Err(VErr::Twice { name }),
        Ok(None) => Ok(modules),
        Err(_) => Err(VErr::Memory),
    }
}

/// The modules that the words of a text are, in their order, where no name in them is declared or driven twice. The text has fewer than 2^32 bytes.
pub(crate) fn sources_of(
    alloc: Global,
    bytes: &[u8],
    tokens: &[Token],
) -> Result<List<Source>, VErr>
    requires small { length bytes.now < 2 ^ 32 }
    requires spelled { Spells 0 bytes.now tokens.now }
    ensures written { IfOk result (IsWritten bytes.now) }
    ensures once { IfOk result (λ modules. AllOnce (said [] modules)) }
    ensures refused { IfErr result (IsTold bytes.now) }
{
    match written_in(alloc, bytes, tokens) {
        Ok(modules) => once(alloc, modules),
        Err(error) => Err(error),
    }
}

/// The same of a text.
pub fn sources_in(alloc: Global, bytes: &[u8]) -> Result<List<Source>, VErr>
    requires { length bytes.now < 2 ^ 32 }
    ensures written { IfOk result (IsWritten bytes.now) }
    ensures once { IfOk result (λ modules. AllOnce (said [] modules)) }
    ensures refused { IfErr result (IsTold bytes.now) }
{
    match words_in(alloc, bytes) {
        Ok(tokens) => sources_of(alloc, bytes, tokens.as_slice()),
        Err(_) => Err(VErr::Memory),
    }
}
