ghost use Rattle.std.specs.Prelude.{◌≡◌, true};
ghost use Rattle.ix_extension.specs.Extensions.{view_extension};
ghost use Rattle.ix_extension.specs.WellFormed.{IsWellFormed};
ghost use Rattle.rv_seq.specs.Interrupts.{return_to as specified_return_to, is_return as specified_is_return, resumed, is_enabled, diverted};

use crate::arch::{Arch, TrapState};
use crate::decoding::decode_in;
use ix_tree::Extension;

/// MRET (RISC-V Privileged ISA, trap-return instructions).
const MRET: u32 = 0x3020_0073;

/// Where a word that is no instruction goes on, if it does: MRET returns from the handler, on a core with an interrupt line.
pub fn return_to(word: u32, trap: Option<TrapState>) -> Option<u32>
    ensures { result ≡ specified_return_to word trap }
{
    match trap {
        Some(state) => { if word == MRET { Some(state.epc) } else { None } }
        None => None,
    }
}

/// Whether the word returns from the handler: it is MRET, and no instruction of the base set or of a well-formed extension matches it.
pub fn is_return(ext: &Extension, word: u32) -> bool
    requires { IsWellFormed ext.now }
    ensures { result ≡ specified_is_return (view_extension ext.now) word }
{
    word == MRET && decode_in(ext, word).is_none()
}

/// The state behind a return: interrupts are taken again, on a core with an interrupt line.
pub fn resume(arch: &mut Arch)
    ensures { arch.new ≡ resumed true arch.old }
{
    if let Some(state) = &mut arch.trap {
        state.enabled = true;
    }
}

/// Enters the handler that begins at an address: the pc is kept, and no further interrupt is taken. Interrupts are taken in the state before. It takes no memory.
#[tactic(auto, unfolding(crate::specs::Interrupts::diverted))]
pub fn divert(arch: &mut Arch, entry: u32)
    requires { is_enabled arch.old.trap ≡ true }
    ensures { arch.new ≡ diverted entry arch.old }
{
    arch.trap = Some(TrapState {
        epc: arch.pc,
        enabled: false,
    });
    arch.pc = entry;
}
