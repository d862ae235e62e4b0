ghost use Rattle.std.specs.Prelude.{◌≡◌, ◌<◌, length, Some, slice_get};
ghost use Rattle.ix_extension.specs.WellFormed.{IsWellFormed};
ghost use Rattle.rv_asks.specs.Asks.{IsAskingOf};
ghost use Rattle.rv_past.specs.Due.{IsDue};
ghost use Rattle.rv_past.specs.Steps.{AreSteps};
ghost use Rattle.rv_watch.specs.Watched.{setting_of, tree_of, asks_by};

use ix_plan::Design;
use ix_tree::Extension;
use rv_asks::{Asking, Asks, asks_of};
use rv_core::Shape;
use rv_past::{Due, Step, Steps};
use rv_seq::{StepAnswer, decode_in};
use rv_waits::Waits;

/// What a trace is judged against.
#[derive(Clone, Copy)]
pub struct Against<'a> {
    pub design: &'a Design,
    pub asking: &'a Asking,
    pub image: &'a [u32],
    pub waits: &'a Waits,
}

impl Against<'_> {
    pub fn shape(&self) -> Shape
        ensures { result ≡ self.now.design.now.sheet.shape }
    {
        self.design.sheet.shape
    }

    pub fn extension(&self) -> &Extension
        ensures { result.now ≡ self.now.design.now.extension }
    {
        &self.design.extension
    }

    /// What is asked of the instruction that a word is.
    pub fn asks(&self, word: u32) -> Asks
        requires well_formed { IsWellFormed self.now.design.now.extension }
        ensures asks { IsAskingOf self.now.design.now self.now.asking.now → result ≡ (setting_of self.now).asks word }
    {
        asks_of(self.asking, word, decode_in(&self.design.extension, word))
    }

    // What is asked of the instruction of a step; of word 0 where it stops.
    fn asks_in(&self, step: &Step) -> Asks
        requires well_formed { IsWellFormed self.now.design.now.extension }
        ensures { IsAskingOf self.now.design.now self.now.asking.now → result ≡ asks_by (setting_of self.now) step.now.answer }
    {
        match &step.answer {
            StepAnswer::Done(commit) => self.asks(commit.word),
            StepAnswer::Stopped(_) => self.asks(0),
        }
    }

    /// The step at a place of the run, and what is asked of its instruction; of word 0 where it
    /// stops. There are steps.
    pub fn due(&self, steps: &Steps, place: u32) -> Due
        requires well_formed { IsWellFormed self.now.design.now.extension }
        requires some { 0 < length steps.now.steps }
        ensures due { IsAskingOf self.now.design.now self.now.asking.now → AreSteps (tree_of self.now) self.now.image.now steps.now → place < length steps.now.steps → IsDue (setting_of self.now) place result }
        ensures asks { IsAskingOf self.now.design.now self.now.asking.now → result.asks ≡ asks_by (setting_of self.now) result.step.answer }
    {
        let step = step_at(steps, place as usize);
        let asks = self.asks_in(&step);
        Due { step, asks }
    }
}

/// The step at a place of the run, or the first one where that step is not known. There are steps.
pub fn step_at(steps: &Steps, place: usize) -> Step
    requires some { 0 < length steps.now.steps }
    ensures step { place < length steps.now.steps → slice_get steps.now.steps place ≡ Some result }
{
    let all = steps.steps.as_slice();
    match all.get(place) {
        Some(step) => *step,
        None => all[0],
    }
}
