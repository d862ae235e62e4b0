ghost use Rattle.std.specs.Prelude.{◌≡◌, ◌<◌, ◌^◌, [], List, length, All, IfOk, IfErr};
ghost use Rattle.std.specs.List.{AllZip};
ghost use Rattle.ix_net.specs.declared.netlist.Net.{Net as net_type};
ghost use Rattle.ix_verilog.specs.Words.{Spells};
ghost use Rattle.ix_verilog.specs.Subset.{IsWritten, Denotes};
ghost use Rattle.ix_vnets.specs.Names.{AllOnce, said};
ghost use Rattle.ix_vnets.specs.Nets.{IsMadeOf};
ghost use Rattle.ix_vnets.specs.Drives.{IsMisfit};
ghost use Rattle.ix_vread.specs.Told.{IsTold};
ghost use Rattle.ix_vread.specs.Laws.{IsRead};

use crate::error::VErr;
use crate::first::first_loop_in;
use crate::laws::read_laws;
use crate::place::{drive_place, line_at};
use crate::sources::sources_of;
use crate::words::words_in;
use ix_bits::List;
use ix_net::Net;
use ix_verilog::{Source, Token, subset_laws};
use ix_vnets::{NetErr, nets_in, nets_laws};
use std::alloc::Global;

/// The refusal of a line whose widths disagree.
fn misfit(
    alloc: Global,
    bytes: &[u8],
    tokens: &[Token],
    modules: &[Source],
    before: usize,
    drive: usize,
) -> VErr
    requires small { length bytes.now < 2 ^ 32 }
    requires spelled { Spells 0 bytes.now tokens.now }
    requires written { IsWritten bytes.now modules.now }
    requires once { AllOnce (said [] modules.now) }
    requires misfit { IsMisfit modules.now before drive }
    ensures { IsTold bytes.now result }
{
    nets_laws();
    match drive_place(alloc, tokens, &modules[..before], drive) {
        Ok(place) => VErr::Width {
            line: line_at(bytes, place),
        },
        Err(_) => VErr::Memory,
    }
}

/// The nets, where no assignment depends on itself.
fn loopless(
    alloc: Global,
    bytes: &[u8],
    modules: &[Source],
    nets: List<Net>,
) -> Result<List<Net>, VErr>
    requires written { IsWritten bytes.now modules.now }
    requires once { AllOnce (said [] modules.now) }
    requires made { AllZip IsMadeOf modules.now nets }
    ensures denotes { IfOk result (Denotes bytes.now) }
    ensures refused { IfErr result (IsTold bytes.now) }
{
    nets_laws();
    match first_loop_in(alloc, nets.as_slice()) {
        Ok(Some(name)) => Err(VErr::Loop { name }),
        Ok(None) => Ok(nets),
        Err(_) => Err(VErr::Memory),
    }
}

/// The nets of the modules of a text.
fn nets_of(
    alloc: Global,
    bytes: &[u8],
    tokens: &[Token],
    modules: &[Source],
) -> Result<List<Net>, VErr>
    requires small { length bytes.now < 2 ^ 32 }
    requires spelled { Spells 0 bytes.now tokens.now }
    requires written { IsWritten bytes.now modules.now }
    requires once { AllOnce (said [] modules.now) }
    ensures denotes { IfOk result (Denotes bytes.now) }
    ensures refused { IfErr result (IsTold bytes.now) }
{
    nets_laws();
    match nets_in(alloc, modules) {
        Ok(nets) => loopless(alloc, bytes, modules, nets),
        Err(NetErr::Misfit { module, drive }) => {
            Err(misfit(alloc, bytes, tokens, modules, module, drive))
        }
        Err(NetErr::Memory) => Err(VErr::Memory),
    }
}

/// The nets that the words of a text denote.
fn nets_in_words(alloc: Global, bytes: &[u8], tokens: &[Token]) -> Result<List<Net>, VErr>
    requires small { length bytes.now < 2 ^ 32 }
    requires spelled { Spells 0 bytes.now tokens.now }
    ensures denotes { IfOk result (Denotes bytes.now) }
    ensures refused { IfErr result (IsTold bytes.now) }
{
    match sources_of(alloc, bytes, tokens) {
        Ok(modules) => nets_of(alloc, bytes, tokens, modules.as_slice()),
        Err(error) => Err(error),
    }
}

/// The nets that a text denotes, in their order, or why it denotes none. The text has fewer than 2^32 bytes.
pub fn read(alloc: Global, bytes: &[u8]) -> Result<List<Net>, VErr>
    requires { length bytes.now < 2 ^ 32 }
    ensures denotes { IfOk result (Denotes bytes.now) }
    ensures refused { IfErr result (IsTold bytes.now) }
    ensures exactly { (nets : List net_type) → Denotes bytes.now nets → IsRead result nets }
{
    subset_laws();
    read_laws();
    match words_in(alloc, bytes) {
        Ok(tokens) => nets_in_words(alloc, bytes, tokens.as_slice()),
        Err(_) => Err(VErr::Memory),
    }
}
