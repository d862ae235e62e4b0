ghost use Rattle.std.specs.Prelude.{◌≡◌};
ghost use Rattle.ix_extension.specs.Extensions.{view_extension};
ghost use Rattle.ix_extension.specs.WellFormed.{IsWellFormed};
ghost use Rattle.ix_eval.specs.Scratches.{IsScratchOf};
ghost use Rattle.rv_seq.specs.WordEffects.{AreWide};
ghost use Rattle.rv_seq.specs.Decoding.{IsIn};
ghost use Rattle.rv_seq.specs.States.{state_at as specified_state_at};
ghost use Rattle.rv_seq.specs.Steps.{word_at as specified_word_at, return_effect as specified_return_effect, attempted, of_return, step, after};
ghost use Rattle.rv_seq.specs.Sound.{IsSound};

use crate::answer::StepAnswer;
use crate::applying::{apply, commit_of};
use crate::arch::Arch;
use crate::commit::Stop;
use crate::decoded::Decoded;
use crate::decoding::{decode_in, rs1_of, rs2_of};
use crate::interrupts::{is_return, resume, return_to};
use crate::stopping::stop_of;
use crate::word_effect::{blocks_effect, effect_of, over};
use ix_eval::{Effect, Inputs, Scratch};
use ix_tree::Extension;
use rv_isa::Image;

/// The word at an address of the image, where the address is divisible by 4 and inside it.
pub fn word_at(image: &[u32], at: u32) -> Option<u32>
    ensures { result ≡ specified_word_at image.now at }
{
    if at % 4 == 0 {
        image.get((at / 4) as usize).copied()
    } else {
        None
    }
}

// What an instruction of a word and the always-blocks see of the state.
fn state_at(word: u32, arch: &Arch) -> Inputs
    ensures { result ≡ specified_state_at word arch.now }
{
    Inputs {
        word,
        rs1: arch.x[usize::from(rs1_of(word))],
        rs2: arch.x[usize::from(rs2_of(word))],
        pc: arch.pc,
        custom: arch.custom,
    }
}

// What the instruction of a word comes to.
#[tactic(auto, unfolding(crate::specs::Steps::attempted))]
fn attempt(
    ext: &Extension,
    arch: &Arch,
    word: u32,
    decoded: Decoded,
    scratch: &mut Scratch,
) -> StepAnswer
    requires well_formed { IsWellFormed ext.now }
    requires is_in { IsIn (view_extension ext.now) decoded }
    requires wide { AreWide (view_extension ext.now) arch.now.custom }
    requires scratch { IsScratchOf (view_extension ext.now) scratch.old }
    ensures scratch { IsScratchOf (view_extension ext.now) scratch.new }
    ensures answer { result ≡ attempted (view_extension ext.now) arch.now word decoded }
    ensures sound { IsSound (view_extension ext.now) result }
{
    let inputs = state_at(word, arch);
    let own = effect_of(ext, decoded, &inputs, &arch.mem, scratch);
    match stop_of(decoded, &own) {
        Some(stop) => StepAnswer::Stopped(stop),
        None => {
            let blocks = blocks_effect(ext, &inputs, &arch.mem, scratch);
            StepAnswer::Done(commit_of(arch.pc, word, &over(&own, &blocks)))
        }
    }
}

/// What a return to an address does.
pub fn return_effect(at: u32) -> Effect
    ensures { result ≡ specified_return_effect at }
{
    Effect {
        rd: None,
        pc: Some(at),
        custom: [None; 16],
        load: None,
        store: None,
    }
}

// What a word that is no instruction comes to: it stops, or goes on at an address.
#[tactic(auto, unfolding(crate::specs::Steps::of_return))]
fn go_back(
    ext: &Extension,
    arch: &Arch,
    word: u32,
    at: Option<u32>,
    scratch: &mut Scratch,
) -> StepAnswer
    requires well_formed { IsWellFormed ext.now }
    requires wide { AreWide (view_extension ext.now) arch.now.custom }
    requires scratch { IsScratchOf (view_extension ext.now) scratch.old }
    ensures scratch { IsScratchOf (view_extension ext.now) scratch.new }
    ensures answer { result ≡ of_return (view_extension ext.now) arch.now word at }
    ensures sound { IsSound (view_extension ext.now) result }
{
    let Some(at) = at else {
        return StepAnswer::Stopped(Stop::Illegal);
    };
    let inputs = state_at(word, arch);
    let blocks = blocks_effect(ext, &inputs, &arch.mem, scratch);
    StepAnswer::Done(commit_of(arch.pc, word, &over(&return_effect(at), &blocks)))
}

// What a step comes to.
#[tactic(auto, unfolding(crate::specs::Steps::step))]
fn answer_to(ext: &Extension, image: &Image, arch: &Arch, scratch: &mut Scratch) -> StepAnswer
    requires well_formed { IsWellFormed ext.now }
    requires wide { AreWide (view_extension ext.now) arch.now.custom }
    requires scratch { IsScratchOf (view_extension ext.now) scratch.old }
    ensures scratch { IsScratchOf (view_extension ext.now) scratch.new }
    ensures answer { result ≡ step (view_extension ext.now) image.now arch.now }
    ensures sound { IsSound (view_extension ext.now) result }
{
    match word_at(image.as_slice(), arch.pc) {
        None => StepAnswer::Stopped(Stop::Fetch),
        Some(word) => match decode_in(ext, word) {
            None => go_back(ext, arch, word, return_to(word, arch.trap), scratch),
            Some(decoded) => attempt(ext, arch, word, decoded, scratch),
        },
    }
}

/// A step of the sequential run of an image on a core with a well-formed extension: one instruction with the always-blocks, or a
/// return from the handler on a core with an interrupt line. The state and the scratch are of this extension. It takes no memory. Where the run stops, the state stays as it was.
pub fn seq_step(
    ext: &Extension,
    image: &Image,
    arch: &mut Arch,
    scratch: &mut Scratch,
) -> StepAnswer
    requires well_formed { IsWellFormed ext.now }
    requires wide { AreWide (view_extension ext.now) arch.old.custom }
    requires scratch { IsScratchOf (view_extension ext.now) scratch.old }
    ensures answer { result ≡ step (view_extension ext.now) image.now arch.old }
    ensures state { arch.new ≡ after (view_extension ext.now) arch.old result }
    ensures wide { AreWide (view_extension ext.now) arch.new.custom }
    ensures scratch { IsScratchOf (view_extension ext.now) scratch.new }
{
    let answer = answer_to(ext, image, arch, scratch);
    if let StepAnswer::Done(commit) = &answer {
        apply(arch, commit);
        if is_return(ext, commit.word) {
            resume(arch);
        }
    }
    answer
}
