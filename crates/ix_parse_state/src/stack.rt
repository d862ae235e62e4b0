ghost use Rattle.std.specs.Prelude.{◌≡◌, ◌+◌, [], ◌∷◌, length, IfOk, IfSome, IfNone};
ghost use Rattle.ix_parse_state.specs.Views.{frame_of, stack_of};

use crate::frame::Frame;
use ix_bits::{Memory, put};
use std::alloc::Global;

/// The stack with one more open production.
pub fn push(mut stack: Vec<Frame>, frame: Frame) -> Result<Vec<Frame>, Memory>
    ensures { IfOk result (λ k. stack_of k.items ≡ frame_of frame ∷ stack_of stack.items) }
{
    match put(&mut stack, frame) {
        Ok(()) => Ok(stack),
        Err(Memory) => {
            drop(stack);
            Err(Memory)
        }
    }
}

/// The stack of no open production.
#[tactic(auto, using(crate::proofs::Stacks::none_open))]
pub fn bottom(alloc: Global) -> Vec<Frame>
    ensures { stack_of result.items ≡ [] }
{
    Vec::new(alloc)
}

/// The stack of one open production.
pub fn single(alloc: Global, frame: Frame) -> Result<Vec<Frame>, Memory>
    ensures { IfOk result (λ k. stack_of k.items ≡ frame_of frame ∷ []) }
{
    push(bottom(alloc), frame)
}

/// The innermost open production, and the stack without it.
pub fn pop(mut stack: Vec<Frame>) -> Option<(Frame, Vec<Frame>)>
    ensures some { IfSome result (λ p. stack_of stack.items ≡ frame_of p.0 ∷ stack_of p.1.items) }
    ensures fewer { IfSome result (λ p. length p.1.items + 1 ≡ length stack.items) }
    ensures none { IfNone result (stack_of stack.items ≡ []) }
{
    match stack.pop() {
        Some(frame) => Some((frame, stack)),
        None => {
            drop(stack);
            None
        }
    }
}
