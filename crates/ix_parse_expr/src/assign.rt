ghost use Rattle.std.specs.Prelude.{◌∷◌};
ghost use Rattle.ix_tree.specs.View.{view_assign};
ghost use Rattle.ix_tree.specs.Machine.{begin_assign, after_assign, step_of, step};
ghost use Rattle.ix_parse_state.specs.Views.{stack_of, of_assign, assign_frame};
ghost use Rattle.ix_parse_state.specs.Moves.{Moves};

use crate::enter::{behind, copied, drop_frame, entered, open_expr, open_stmt};
use crate::place::{after_place, begin_place, step_of};
use ix_parse_state::block::assignment;
use ix_parse_state::frame::{AssignFrame, ClosingFrame, Frame, StmtFrame};
use ix_parse_state::sign::{CLOSE_ROUND, OPEN_SQUARE, SEMICOLON};
use ix_parse_state::stack::pop;
use ix_parse_state::state::{AssignGoal, Goal, Reader, StmtGoal};
use ix_parse_state::stop::Stop;
use ix_tree::{Assign, Token};
use std::alloc::Global;

/// What the first token of an assignment leads to.
pub fn begin_assign(
    alloc: Global,
    depth: u32,
    stack: Vec<Frame>,
    token: &Token,
) -> Result<Reader, Stop>
    ensures { Moves result (begin_assign depth (stack_of stack.items) token.now (step_of token.now.kind)) }
{
    match step_of(token) {
        None => begin_place(alloc, depth, stack, token),
        Some(op) => {
            match copied(alloc, depth, 0, token) {
                Ok(symbol) => {
                    let frame = AssignFrame::Step(symbol, op);
                    let goal = AssignGoal::Placing(depth);
                    entered(Frame::Assign(frame), Goal::Assign(goal), stack)
                }
                Err(stop) => {
                    drop(stack);
                    Err(stop)
                }
            }
        }
    }
}

/// What goes on behind an assignment.
pub fn after_assign(
    alloc: Global,
    assign: Assign,
    stack: Vec<Frame>,
    token: &Token,
) -> Result<Reader, Stop>
    ensures { Moves result (after_assign (view_assign assign) (stack_of stack.items) token.now) }
{
    match pop(stack) {
        Some((frame, stack)) => match frame {
            Frame::Assign(frame) => after_assign_of(assign, frame, stack, token),
            other => {
                drop_frame(other);
                drop(stack);
                drop(assign);
                Err(Stop::Refused)
            }
        },
        None => {
            drop(assign);
            Err(Stop::Refused)
        }
    }
}

/// What goes on behind an assignment of this kind.
fn after_assign_of(
    assign: Assign,
    frame: AssignFrame,
    stack: Vec<Frame>,
    token: &Token,
) -> Result<Reader, Stop>
    ensures { Moves result (after_assign (view_assign assign) (assign_frame frame ∷ stack_of stack.items) token.now) }
{
    match frame {
        AssignFrame::Single(depth) => {
            let goal = StmtGoal::Done(assignment(assign, token));
            behind(token, SEMICOLON, depth, 0, Goal::Stmt(goal), stack)
        }
        AssignFrame::Last(head, start, test) => {
            let depth = head.depth;
            let frame = StmtFrame::Loop(head, start, test, assign);
            open_stmt(token, CLOSE_ROUND, depth, Frame::Stmt(frame), stack)
        }
        AssignFrame::Step(symbol, _) => {
            drop(symbol);
            drop(stack);
            drop(assign);
            Err(Stop::Refused)
        }
    }
}

/// What the token leads to inside of an assignment.
#[tactic(auto, unfolding(ix_tree::specs::Machine::step))]
pub fn assign_step(
    alloc: Global,
    goal: AssignGoal,
    stack: Vec<Frame>,
    token: &Token,
) -> Result<Reader, Stop>
    ensures { Moves result (step (of_assign goal (stack_of stack.items)) token.now) }
{
    match goal {
        AssignGoal::Assigning(depth) => begin_assign(alloc, depth, stack, token),
        AssignGoal::Placing(depth) => begin_place(alloc, depth, stack, token),
        AssignGoal::XSquare(depth, word) => {
            let frame = ClosingFrame::X(depth, word);
            open_expr(token, OPEN_SQUARE, depth, 1, Frame::Closing(frame), stack)
        }
        AssignGoal::MemSquare(depth, word) => {
            let frame = ClosingFrame::Mem(depth, word);
            open_expr(token, OPEN_SQUARE, depth, 1, Frame::Closing(frame), stack)
        }
        AssignGoal::Placed(place) => after_place(alloc, place, stack, token),
        AssignGoal::Assigned(assign) => after_assign(alloc, assign, stack, token),
    }
}
