use crate::step::Step;
use rv_asks::Asks;

/// A step of the run, and what is asked of its instruction: anything where the step stops.
#[derive(Clone, Copy, Debug, PartialEq, Eq)]
pub struct Due {
    pub step: Step,
    pub asks: Asks,
}
