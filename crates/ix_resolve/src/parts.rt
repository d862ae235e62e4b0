ghost use Rattle.std.specs.Prelude.{◌≡◌, map};
ghost use Rattle.ix_tree.specs.TypedView.{typed_whole};
ghost use Rattle.ix_extension.specs.Extensions.{view_extension};
ghost use Rattle.ix_behaviour.specs.Behaviours.{body_at, pieces_at};

use ix_behaviour::Which;
use ix_tree::{Extension, Piece, TypedStmt};

/// The statements of a behaviour, none where there is no such behaviour.
pub(crate) fn body_of(ext: &Extension, which: Which) -> &[TypedStmt]
    ensures { map typed_whole result.now ≡ body_at (view_extension ext.now) which }
{
    match which {
        Which::Instruction(n) => match ext.instructions.as_slice().get(usize::from(n)) {
            Some(instruction) => instruction.behaviour.body.as_slice(),
            None => &[],
        },
        Which::Block(n) => match ext.blocks.as_slice().get(usize::from(n)) {
            Some(block) => block.body.as_slice(),
            None => &[],
        },
    }
}

/// The pieces of a behaviour's fields. An always-block has none.
pub(crate) fn pieces_of(ext: &Extension, which: Which) -> &[Piece]
    ensures { result.now ≡ pieces_at (view_extension ext.now) which }
{
    match which {
        Which::Instruction(n) => match ext.instructions.as_slice().get(usize::from(n)) {
            Some(instruction) => instruction.pieces.as_slice(),
            None => &[],
        },
        Which::Block(_) => &[],
    }
}
