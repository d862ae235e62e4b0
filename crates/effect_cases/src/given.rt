ghost use Rattle.std.specs.Prelude.{◌≡◌, ◌+◌, ◌<◌, ℕ, true, false, map, get_or, slice_get, length, IfSome};
ghost use Rattle.ix_mean.specs.Core.{u1 as bit};
ghost use Rattle.ix_extension.specs.Extensions.{view_extension};
ghost use Rattle.ix_behaviour.specs.Behaviours.{HasBehaviour, type_of_register};

use ix_behaviour::Which;
use ix_bits::{Bits, range};
use ix_tree::{Extension, Register};

/// Whether the extension has the behaviour.
pub fn has_behaviour(ext: &Extension, which: Which) -> bool
    ensures yes { result ≡ true → HasBehaviour (view_extension ext.now) which }
    ensures no { result ≡ false → HasBehaviour (view_extension ext.now) which → ⊥ }
{
    match which {
        Which::Instruction(n) => usize::from(n) < ext.instructions.len(),
        Which::Block(n) => usize::from(n) < ext.blocks.len(),
    }
}

// The low bits of a pattern, as many as the custom register of a number has; a zero of one bit past the registers.
fn pattern(registers: &[Register], number: usize, raw: u128) -> Bits
    ensures { result.width ≡ (get_or (map type_of_register registers.now) number bit).width }
{
    if number < registers.len() {
        range(Bits { raw, width: 128 }, registers[number].ty.width - 1, 0)
    } else {
        Bits { raw: 0, width: 1 }
    }
}

/// The values of the custom registers: of each the low bits of its pattern, and a zero of one bit for each number past the registers.
pub fn values(registers: &[Register], raw: &[u128; 16]) -> [Bits; 16]
    ensures { (r : ℕ) → IfSome (slice_get result r) (λ b. b.width ≡ (get_or (map type_of_register registers.now) r bit).width) }
{
    let mut all = [Bits { raw: 0, width: 1 }; 16];
    for number in 0..16usize {
        all[number] = pattern(registers, number, raw[number]);
    }
    all
}
