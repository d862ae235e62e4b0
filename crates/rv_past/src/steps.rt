ghost use Rattle.std.specs.Prelude.{ℕ, List, ◌≡◌, ◌+◌, ◌<◌, ◌^◌, length, if◌then◌else◌, IfOk, OnOk, OnErr, None};
ghost use Rattle.ix_extension.specs.Extensions.{view_extension};
ghost use Rattle.ix_extension.specs.WellFormed.{IsWellFormed};
ghost use Rattle.ix_eval.specs.Scratches.{IsScratchOf};
ghost use Rattle.rv_seq.specs.WordEffects.{AreWide};
ghost use Rattle.rv_seq.specs.Sound.{IsSound};
ghost use Rattle.rv_past.specs.Steps.{behind, AreSteps};

use crate::step::{Step, step_of};
use ix_bits::{List, Memory};
use ix_eval::Scratch;
use ix_tree::Extension;
use rv_seq::{Arch, StepAnswer, apply};
use std::alloc::Global;

/// The first steps of a run, and the state behind them.
#[derive(Drop)]
pub struct Steps {
    pub steps: List<Step>,
    pub ahead: Arch,
    /// How many of the steps access the memory.
    pub accesses: u32,
}

impl Steps {
    /// No step so far of the run with a well-formed extension.
    pub fn new(alloc: Global, ext: &Extension) -> Result<Steps, Memory>
        requires { IsWellFormed ext.now }
        ensures steps { (image : List ℕ) → IfOk result (λ steps. AreSteps (view_extension ext.now) image steps) }
        ensures none { IfOk result (λ steps. length steps.steps ≡ 0) }
    {
        let ahead = Arch::new(alloc, ext)?;
        Ok(Steps {
            steps: List::new(alloc),
            ahead,
            accesses: 0,
        })
    }
}

// One more, if it is so.
fn counted(count: u32, more: bool) -> u32
    requires { count < 2 ^ 31 }
    ensures { result ≡ (if more then count + 1 else count) }
{
    if more { count + 1 } else { count }
}

// The state behind what a step answers.
fn go_on(ext: &Extension, answer: &StepAnswer, arch: &mut Arch)
    requires wide { AreWide (view_extension ext.now) arch.old.custom }
    requires sound { IsSound (view_extension ext.now) answer.now }
    ensures state { arch.new ≡ behind answer.now arch.old }
    ensures wide { AreWide (view_extension ext.now) arch.new.custom }
{
    if let StepAnswer::Done(commit) = answer {
        apply(arch, commit);
    }
}

/// One step more. The scratch is of this extension, and there are fewer than 2^31 steps.
pub fn one_more(
    ext: &Extension,
    image: &[u32],
    steps: &mut Steps,
    scratch: &mut Scratch,
) -> Result<(), Memory>
    requires well_formed { IsWellFormed ext.now }
    requires scratch { IsScratchOf (view_extension ext.now) scratch.old }
    requires steps { AreSteps (view_extension ext.now) image.now steps.old }
    requires few { length steps.old.steps < 2 ^ 31 }
    ensures scratch { IsScratchOf (view_extension ext.now) scratch.new }
    ensures steps { OnOk result (AreSteps (view_extension ext.now) image.now steps.new) }
    ensures more { OnOk result (length steps.new.steps ≡ length steps.old.steps + 1) }
{
    let step = step_of(ext, image, &steps.ahead, steps.accesses, scratch);
    steps.steps.push(step)?;
    steps.accesses = counted(steps.accesses, step.accesses);
    go_on(ext, &step.answer, &mut steps.ahead);
    Ok(())
}
