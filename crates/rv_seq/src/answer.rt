use crate::commit::{Commit, Stop};

/// What a step comes to: the writes of an instruction, or why the run stops there.
#[derive(Clone, Copy, Debug, PartialEq, Eq)]
pub enum StepAnswer {
    Done(Commit),
    Stopped(Stop),
}
