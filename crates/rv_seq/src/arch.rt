ghost use Rattle.std.specs.Prelude.{◌≡◌, IfOk};
ghost use Rattle.ix_extension.specs.Extensions.{view_extension};
ghost use Rattle.ix_extension.specs.WellFormed.{IsWellFormed};
ghost use Rattle.rv_seq.specs.WordEffects.{AreWide};
ghost use Rattle.rv_seq.specs.States.{first, initials, initial_of};
ghost use Rattle.rv_seq.specs.Interrupts.{with_line};

use ix_bits::{Bits, Memory};
use ix_tree::{Extension, Register};
use rv_memory::RandomAccess;
use std::alloc::Global;

/// What a core with an interrupt line knows of interrupts.
#[derive(Clone, Copy, Debug, PartialEq, Eq)]
pub struct TrapState {
    /// The address to which the handler returns.
    pub epc: u32,
    /// Whether an interrupt is taken.
    pub enabled: bool,
}

/// The architectural state: the pc, the x registers, of which x0 is 0, the custom registers, the memory, and the trap state, where the
/// core has an interrupt line. Custom registers past the extension's are a zero of one bit. Only the making of a first state takes memory.
#[derive(Drop)]
pub struct Arch {
    pub pc: u32,
    pub x: [u32; 32],
    pub custom: [Bits; 16],
    pub mem: RandomAccess,
    pub trap: Option<TrapState>,
}

// The value that the custom register of a number starts with.
fn initial(registers: &[Register], number: usize) -> Bits
    ensures { result ≡ initial_of registers.now number }
{
    if number < registers.len() {
        registers[number].initial
    } else {
        Bits { raw: 0, width: 1 }
    }
}

// The values that the custom registers start with.
fn initials_of(registers: &[Register]) -> [Bits; 16]
    ensures { result ≡ initials registers.now }
{
    let mut all = [Bits { raw: 0, width: 1 }; 16];
    for number in 0..16usize {
        all[number] = initial(registers, number);
    }
    all
}

impl Arch {
    /// The first state of a core with a well-formed extension and no interrupt line.
    #[tactic(auto, unfolding(crate::specs::States::first))]
    pub fn new(alloc: Global, ext: &Extension) -> Result<Arch, Memory>
        requires { IsWellFormed ext.now }
        ensures first { IfOk result (λ arch. arch ≡ first (view_extension ext.now)) }
        ensures wide { IfOk result (λ arch. AreWide (view_extension ext.now) arch.custom) }
    {
        let custom = initials_of(ext.registers.as_slice());
        match RandomAccess::new(alloc) {
            Ok(mem) => Ok(Arch {
                pc: 0,
                x: [0; 32],
                custom,
                mem,
                trap: None,
            }),
            Err(error) => Err(error),
        }
    }

    /// The first state of a core with a well-formed extension and an interrupt line: none was taken, and one is taken when it comes.
    pub fn with_trap(alloc: Global, ext: &Extension) -> Result<Arch, Memory>
        requires { IsWellFormed ext.now }
        ensures first { IfOk result (λ arch. arch ≡ with_line (first (view_extension ext.now))) }
        ensures wide { IfOk result (λ arch. AreWide (view_extension ext.now) arch.custom) }
    {
        let mut arch = Arch::new(alloc, ext)?;
        arch.trap = Some(TrapState {
            epc: 0,
            enabled: true,
        });
        Ok(arch)
    }
}
