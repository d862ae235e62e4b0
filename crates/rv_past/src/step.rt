ghost use Rattle.std.specs.Prelude.{◌≡◌, false};
ghost use Rattle.rv_tried.specs.Tried.{no_customs, marked as specified_marked};
ghost use Rattle.ix_extension.specs.Extensions.{view_extension};
ghost use Rattle.ix_extension.specs.WellFormed.{IsWellFormed};
ghost use Rattle.ix_eval.specs.Scratches.{IsScratchOf};
ghost use Rattle.rv_seq.specs.WordEffects.{AreWide};
ghost use Rattle.rv_seq.specs.States.{state_at as specified_state_at};
ghost use Rattle.rv_seq.specs.Sound.{IsSound};
ghost use Rattle.rv_seq.specs.declared.answer.StepAnswer.TheVariants.{Stopped};
ghost use Rattle.rv_seq.specs.declared.commit.Stop.TheVariants.{Fetch};
ghost use Rattle.rv_past.specs.Steps.{IsStepOf};

use ix_bits::Bits;
use ix_eval::{Inputs, Scratch};
use ix_tree::Extension;
use rv_seq::{Arch, StepAnswer, Stop, decode_in, return_to, rs1_of, rs2_of, word_at};
use rv_tried::{trial_laws, try_word};

/// A step of the sequential run.
#[derive(Clone, Copy, Debug, PartialEq, Eq)]
pub struct Step {
    /// The pc before the step.
    pub pc: u32,
    pub answer: StepAnswer,
    /// Does it access the memory, its condition true?
    pub accesses: bool,
    /// How many of the steps before it do.
    pub before: u32,
    /// What the always-blocks alone write to the custom registers.
    pub blocks: [Option<Bits>; 16],
    /// The custom registers that the instruction itself writes.
    pub own: [bool; 16],
}

// What the instruction of a word sees of a state.
fn state_at(word: u32, arch: &Arch) -> Inputs
    ensures { result ≡ specified_state_at word arch.now }
{
    Inputs {
        word,
        rs1: arch.x[usize::from(rs1_of(word))],
        rs2: arch.x[usize::from(rs2_of(word))],
        pc: arch.pc,
        custom: arch.custom,
    }
}

// A fetch outside the image, or between words.
fn nowhere(arch: &Arch, before: u32) -> Step
    ensures pc { result.pc ≡ arch.now.pc }
    ensures before { result.before ≡ before }
    ensures answer { result.answer ≡ Stopped Fetch }
    ensures accesses { result.accesses ≡ false }
    ensures blocks { result.blocks ≡ no_customs }
    ensures own { result.own ≡ specified_marked no_customs }
{
    Step {
        pc: arch.pc,
        answer: StepAnswer::Stopped(Stop::Fetch),
        accesses: false,
        before,
        blocks: [None; 16],
        own: [false; 16],
    }
}

/// The step of a state of this extension, as `before` steps accessed the memory so far. The image is
/// in words of 32 bits, the first at address 0, and a pc counts bytes; a pc between words or outside
/// the image is the step that stops with `Fetch`. The scratch is of this extension. It takes no memory
/// and has no errors.
pub fn step_of(
    ext: &Extension,
    image: &[u32],
    arch: &Arch,
    before: u32,
    scratch: &mut Scratch,
) -> Step
    requires well_formed { IsWellFormed ext.now }
    requires wide { AreWide (view_extension ext.now) arch.now.custom }
    requires scratch { IsScratchOf (view_extension ext.now) scratch.old }
    ensures scratch { IsScratchOf (view_extension ext.now) scratch.new }
    ensures step { IsStepOf (view_extension ext.now) image.now arch.now before result }
    ensures sound { IsSound (view_extension ext.now) result.answer }
{
    trial_laws();
    let Some(word) = word_at(image, arch.pc) else {
        return nowhere(arch, before);
    };
    let inputs = state_at(word, arch);
    let decoded = decode_in(ext, word);
    let back = return_to(word, arch.trap);
    let trial = try_word(ext, decoded, back, &inputs, &arch.mem, scratch);
    let blocks = trial.blocks;
    let own = trial.own;
    Step {
        pc: arch.pc,
        answer: trial.answer,
        accesses: trial.accesses,
        before,
        blocks,
        own,
    }
}
