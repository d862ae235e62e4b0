use crate::{Names, TakenNames, Targets};

/// What an expression or a statement stands in.
#[derive(Clone, Copy, Debug, PartialEq, Eq)]
pub enum Body {
    /// An initial value or an entry of a table.
    Constant,
    Instruction,
    /// An always-block.
    Always,
}

/// Where a statement stands.
#[derive(Clone, Copy, Debug, PartialEq, Eq)]
pub struct Setting {
    pub body: Body,
    pub in_spawn: bool,
    pub below_if: bool,
}

/// What stands before a statement or an expression.
#[derive(Drop)]
pub struct State {
    /// The visible names.
    pub names: Names,
    /// The targets that are written on some path.
    pub written: Targets,
    /// Whether MEM occurs.
    pub accessed: bool,
    /// Whether a `spawn` stands there.
    pub spawned: bool,
}

/// What stands before a section: whether there was one of each kind, and the names of behaviours.
#[derive(Drop)]
pub struct Front {
    pub states: bool,
    pub instructions: bool,
    pub always: bool,
    pub behaviours: TakenNames,
}
