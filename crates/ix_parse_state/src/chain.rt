ghost use Rattle.std.specs.Prelude.{◌≡◌, ◌+◌};
ghost use Rattle.ix_tree.specs.Trees.{power, before};
ghost use Rattle.ix_parse_state.specs.Parts.{part_of};

use crate::part::Part;
use ix_tree::Token;

/// What stands before an operator, and the operator.
#[derive(Drop)]
pub struct Operand {
    /// The nesting at which the production stands.
    pub depth: u32,
    pub left: Part,
    pub token: Token,
    /// How many operators of its power the chain has with this one.
    pub count: u32,
    pub ghost counted: { count ≡ before (power token.kind) (part_of left) + 1 },
}

/// What stands before an open index.
#[derive(Drop)]
pub struct Indexed {
    /// The nesting at which the production stands.
    pub depth: u32,
    pub left: Part,
    /// How many indices the chain has with this one.
    pub count: u32,
    pub ghost counted: { count ≡ before 26 (part_of left) + 1 },
}
