ghost use Rattle.std.specs.Prelude.{◌≡◌, IfSome, is_some, None, false};
ghost use Rattle.ix_mean.specs.Given.{inputs_of};
ghost use Rattle.ix_extension.specs.Extensions.{view_extension};
ghost use Rattle.ix_extension.specs.WellFormed.{IsWellFormed};
ghost use Rattle.ix_eval.specs.Scratches.{IsScratchOf};
ghost use Rattle.rv_seq.specs.WordEffects.{AreWide};
ghost use Rattle.rv_seq.specs.Decoding.{IsIn};
ghost use Rattle.rv_seq.specs.Runs.{access_in};
ghost use Rattle.rv_seq.specs.Sound.{IsSound};
ghost use Rattle.rv_seq.specs.Commits.{commit_of as specified_commit_of};
ghost use Rattle.rv_seq.specs.declared.answer.StepAnswer.TheVariants.{Done, Stopped};
ghost use Rattle.rv_tried.specs.Tried.{tried, tried_instruction, tried_unknown, marked as specified_marked, no_customs};
ghost use Rattle.rv_tried.specs.Whole.{AreBlocksWide};

use crate::laws::trial_laws;
use ix_bits::Bits;
use ix_eval::{Access, Effect, Inputs, Scratch};
use ix_tree::Extension;
use rv_memory::RandomAccess;
use rv_seq::{
    Decoded, StepAnswer, Stop, blocks_effect, commit_of, effect_of, over, return_effect, stop_of,
};

/// What a word comes to.
#[derive(Clone, Copy, Debug, PartialEq, Eq)]
pub struct Trial {
    /// The writes of the instruction and the always-blocks, or why the run stops there.
    pub answer: StepAnswer,
    /// Does it load or store, the condition true? Nothing that stops does.
    pub accesses: bool,
    /// The access of its load, the condition true; None where it does not load, or the run stops.
    pub load: Option<Access>,
    /// What the always-blocks alone write to the custom registers; nothing where the run stops.
    pub blocks: [Option<Bits>; 16],
    /// The custom registers that the instruction itself writes, the condition true; none where the run stops.
    pub own: [bool; 16],
}

// Does an instruction with this effect load or store?
fn has_access(effect: &Effect) -> bool
    ensures { result ≡ is_some (access_in effect.now) }
{
    effect.load.is_some() || effect.store.is_some()
}

// Which custom registers are written.
fn marked(customs: &[Option<Bits>; 16]) -> [bool; 16]
    ensures { result ≡ specified_marked customs.now }
{
    let mut all = [false; 16];
    for number in 0..16usize {
        all[number] = customs[number].is_some();
    }
    all
}

// What an instruction comes to that stops the run.
fn stopped(stop: Stop) -> Trial
    ensures answer { result.answer ≡ Stopped stop }
    ensures accesses { result.accesses ≡ false }
    ensures load { result.load ≡ None }
    ensures blocks { result.blocks ≡ no_customs }
    ensures own { result.own ≡ specified_marked no_customs }
{
    Trial {
        answer: StepAnswer::Stopped(stop),
        accesses: false,
        load: None,
        blocks: [None; 16],
        own: [false; 16],
    }
}

// What an instruction comes to that goes on, where there are no always-blocks: nothing is put over its effect.
fn alone(inputs: &Inputs, own: &Effect) -> Trial
    ensures answer { result.answer ≡ Done (specified_commit_of inputs.now.pc inputs.now.word own.now) }
    ensures accesses { result.accesses ≡ is_some (access_in own.now) }
    ensures load { result.load ≡ own.now.load }
    ensures blocks { result.blocks ≡ no_customs }
    ensures own { result.own ≡ specified_marked own.now.custom }
{
    Trial {
        answer: StepAnswer::Done(commit_of(inputs.pc, inputs.word, own)),
        accesses: has_access(own),
        load: own.load,
        blocks: [None; 16],
        own: marked(&own.custom),
    }
}

// What an instruction comes to.
#[tactic(auto, unfolding(crate::specs::Tried::tried_instruction))]
fn try_instruction(
    ext: &Extension,
    decoded: Decoded,
    inputs: &Inputs,
    memory: &RandomAccess,
    scratch: &mut Scratch,
) -> Trial
    requires well_formed { IsWellFormed ext.now }
    requires is_in { IsIn (view_extension ext.now) decoded }
    requires wide { AreWide (view_extension ext.now) inputs.now.custom }
    requires scratch { IsScratchOf (view_extension ext.now) scratch.old }
    ensures scratch { IsScratchOf (view_extension ext.now) scratch.new }
    ensures trial { result ≡ tried_instruction (view_extension ext.now) inputs.now memory.now decoded }
    ensures sound { IsSound (view_extension ext.now) result.answer }
{
    let own = effect_of(ext, decoded, inputs, memory, scratch);
    match stop_of(decoded, &own) {
        Some(stop) => stopped(stop),
        None if ext.blocks.is_empty() => alone(inputs, &own),
        None => {
            let blocks = blocks_effect(ext, inputs, memory, scratch);
            Trial {
                answer: StepAnswer::Done(commit_of(inputs.pc, inputs.word, &over(&own, &blocks))),
                accesses: has_access(&own),
                load: own.load,
                blocks: blocks.custom,
                own: marked(&own.custom),
            }
        }
    }
}

// What a word that is no instruction comes to: it stops, or returns to an address.
#[tactic(auto, unfolding(crate::specs::Tried::tried_return))]
fn try_unknown(
    ext: &Extension,
    back: Option<u32>,
    inputs: &Inputs,
    memory: &RandomAccess,
    scratch: &mut Scratch,
) -> Trial
    requires well_formed { IsWellFormed ext.now }
    requires wide { AreWide (view_extension ext.now) inputs.now.custom }
    requires scratch { IsScratchOf (view_extension ext.now) scratch.old }
    ensures scratch { IsScratchOf (view_extension ext.now) scratch.new }
    ensures trial { result ≡ tried_unknown (view_extension ext.now) inputs.now memory.now back }
    ensures sound { IsSound (view_extension ext.now) result.answer }
{
    let Some(at) = back else {
        return stopped(Stop::Illegal);
    };
    let blocks = blocks_effect(ext, inputs, memory, scratch);
    let own = return_effect(at);
    Trial {
        answer: StepAnswer::Done(commit_of(inputs.pc, inputs.word, &over(&own, &blocks))),
        accesses: false,
        load: None,
        blocks: blocks.custom,
        own: [false; 16],
    }
}

/// What the word of these inputs comes to on a core with a well-formed extension, where it is this instruction, or none and returns to
/// this address or stops: its own effect, before which all always-blocks act, each on the same state. The custom registers and the
/// scratch are of this extension. It takes no memory, and changes none.
#[tactic(auto, unfolding(crate::specs::Tried::tried))]
pub fn try_word(
    ext: &Extension,
    decoded: Option<Decoded>,
    back: Option<u32>,
    inputs: &Inputs,
    memory: &RandomAccess,
    scratch: &mut Scratch,
) -> Trial
    requires well_formed { IsWellFormed ext.now }
    requires is_in { IfSome decoded (λ d. IsIn (view_extension ext.now) d) }
    requires wide { AreWide (view_extension ext.now) inputs.now.custom }
    requires scratch { IsScratchOf (view_extension ext.now) scratch.old }
    ensures scratch { IsScratchOf (view_extension ext.now) scratch.new }
    ensures trial { result ≡ tried (view_extension ext.now) inputs.now memory.now back decoded }
    ensures sound { IsSound (view_extension ext.now) result.answer }
    ensures wide { AreBlocksWide (view_extension ext.now) result.blocks }
{
    trial_laws();
    match decoded {
        Some(decoded) => try_instruction(ext, decoded, inputs, memory, scratch),
        None => try_unknown(ext, back, inputs, memory, scratch),
    }
}
