ghost use Rattle.std.specs.Prelude.{◌≡◌, ◌+◌, OnOk};

use ix_bits::Memory;

/// The greatest count of nodes of expressions and of declarations that are made: more than a text without loops can have.
const MOST_NODES: usize = 1_048_576;
/// The greatest count of nodes that are looked at to judge loops.
const MOST_STEPS: usize = 16_777_216;

/// What unrolling has made so far, and what it may still make and look at.
#[derive(Drop)]
pub struct Room {
    /// The statements of the result so far.
    pub statements: u32,
    /// The nodes of expressions and of declarations that may still be made.
    pub nodes: usize,
    /// The nodes that may still be looked at to judge loops.
    pub steps: usize,
}

/// The room for a whole text.
pub fn whole_room() -> Room
    ensures { result.statements ≡ 0 }
{
    Room {
        statements: 0,
        nodes: MOST_NODES,
        steps: MOST_STEPS,
    }
}

/// Takes this many from what is left, if there are as many.
pub fn taken(left: &mut usize, count: usize) -> Result<(), Memory>
    ensures { OnOk result (left.old ≡ left.new + count) }
{
    if count <= *left {
        *left -= count;
        Ok(())
    } else {
        Err(Memory)
    }
}
