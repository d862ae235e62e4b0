ghost use Rattle.std.specs.Prelude.{◌≡◌, length};
ghost use Rattle.ix_mean.specs.Given.{inputs_of};
ghost use Rattle.ix_extension.specs.Extensions.{view_extension};
ghost use Rattle.ix_extension.specs.WellFormed.{IsWellFormed};
ghost use Rattle.ix_behaviour.specs.Behaviours.{HasBehaviour};
ghost use Rattle.ix_eval.specs.Evaluated.{effect_at};
ghost use Rattle.ix_eval.specs.Scratches.{IsScratchOf};
ghost use Rattle.rv_seq.specs.Memory.{peeked};
ghost use Rattle.rv_seq.specs.Decoding.{IsIn};
ghost use Rattle.rv_seq.specs.WordEffects.{effect_of as specified_effect_of, customs_over as specified_customs_over, over as specified_over, no_effect as specified_no_effect, blocks_effect as specified_blocks_effect, AreWide};

use crate::base_rows::{base_effect, peek};
use crate::decoded::Decoded;
use ix_behaviour::{Which, behaviour_laws};
use ix_bits::Bits;
use ix_eval::{Effect, Inputs, Scratch, eval};
use ix_tree::Extension;
use rv_memory::RandomAccess;

// What a behaviour does.
fn behaviour_effect(
    ext: &Extension,
    which: Which,
    inputs: &Inputs,
    memory: &RandomAccess,
    scratch: &mut Scratch,
) -> Effect
    requires well_formed { IsWellFormed ext.now }
    requires in_range { HasBehaviour (view_extension ext.now) which }
    requires wide { AreWide (view_extension ext.now) inputs.now.custom }
    requires scratch { IsScratchOf (view_extension ext.now) scratch.old }
    ensures scratch { IsScratchOf (view_extension ext.now) scratch.new }
    ensures effect { result ≡ effect_at (view_extension ext.now) which (inputs_of inputs.now (peeked memory.now)) }
{
    eval(
        ext,
        which,
        inputs,
        |at, count| peek(memory, at, count),
        scratch,
    )
}

/// What an instruction does, from the state before. It takes no memory. Custom registers have patterns of their widths, those past
/// the extension's a pattern of one bit.
#[tactic(auto, unfolding(crate::specs::WordEffects::effect_of))]
pub fn effect_of(
    ext: &Extension,
    decoded: Decoded,
    inputs: &Inputs,
    memory: &RandomAccess,
    scratch: &mut Scratch,
) -> Effect
    requires well_formed { IsWellFormed ext.now }
    requires is_in { IsIn (view_extension ext.now) decoded }
    requires wide { AreWide (view_extension ext.now) inputs.now.custom }
    requires scratch { IsScratchOf (view_extension ext.now) scratch.old }
    ensures scratch { IsScratchOf (view_extension ext.now) scratch.new }
    ensures effect { result ≡ specified_effect_of (view_extension ext.now) decoded (inputs_of inputs.now (peeked memory.now)) }
{
    match decoded {
        Decoded::Base(base) => base_effect(base, inputs, memory),
        Decoded::Own(number) => {
            behaviour_effect(ext, Which::Instruction(number), inputs, memory, scratch)
        }
    }
}

// Custom register by custom register, the later write, or the earlier one where there is no later.
fn customs_over(later: &[Option<Bits>; 16], earlier: &[Option<Bits>; 16]) -> [Option<Bits>; 16]
    ensures { result ≡ specified_customs_over later.now earlier.now }
{
    let mut all = [None; 16];
    for r in 0..16usize {
        all[r] = later[r].or(earlier[r]);
    }
    all
}

/// An effect behind those of always-blocks, which know neither x registers nor memory: what both write is as the later one writes it.
#[tactic(auto, unfolding(crate::specs::WordEffects::over))]
pub fn over(later: &Effect, earlier: &Effect) -> Effect
    ensures { result ≡ specified_over later.now earlier.now }
{
    Effect {
        rd: later.rd,
        pc: later.pc.or(earlier.pc),
        custom: customs_over(&later.custom, &earlier.custom),
        load: later.load,
        store: later.store,
    }
}

// No effect.
fn no_effect() -> Effect
    ensures { result ≡ specified_no_effect }
{
    Effect {
        rd: None,
        pc: None,
        custom: [None; 16],
        load: None,
        store: None,
    }
}

/// What all always-blocks do, from the same state before, one behind the other. It takes no memory.
pub fn blocks_effect(
    ext: &Extension,
    inputs: &Inputs,
    memory: &RandomAccess,
    scratch: &mut Scratch,
) -> Effect
    requires well_formed { IsWellFormed ext.now }
    requires wide { AreWide (view_extension ext.now) inputs.now.custom }
    requires scratch { IsScratchOf (view_extension ext.now) scratch.old }
    ensures scratch { IsScratchOf (view_extension ext.now) scratch.new }
    ensures effect { result ≡ specified_blocks_effect (view_extension ext.now) (inputs_of inputs.now (peeked memory.now)) (length ext.now.blocks) }
{
    behaviour_laws();
    let mut all = no_effect();
    for n in 0..ext.blocks.len() {
        let block = behaviour_effect(ext, Which::Block(n as u8), inputs, memory, scratch);
        all = over(&block, &all);
    }
    all
}
