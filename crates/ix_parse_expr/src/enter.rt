ghost use Rattle.std.specs.Prelude.{◌≡◌, ℕ, ◌+◌, ◌≤◌, ◌∷◌, IfOk, IfErr};
ghost use Rattle.ix_tree.specs.declared.token.TokenKind.TheVariants.{Symbol};
ghost use Rattle.ix_tree.specs.Machine.{State, go, only, is, want, stmt};
ghost use Rattle.ix_parse_state.specs.Views.{stack_of, frame_of, of_goal};
ghost use Rattle.ix_parse_state.specs.Moves.{Moves, StopsBy};

use ix_bits::Memory;
use ix_parse_state::frame::Frame;
use ix_parse_state::look::{copy, expect, level, nest};
use ix_parse_state::reader::inside;
use ix_parse_state::stack::push;
use ix_parse_state::state::{ExprGoal, Goal, Reader, StmtGoal};
use ix_parse_state::stop::Stop;
use ix_tree::Token;
use std::alloc::Global;

/// A copy of the token, where it stands so much deeper than a production.
pub fn copied(alloc: Global, depth: u32, more: u32, token: &Token) -> Result<Token, Stop>
    ensures level { IfOk result (λ _. depth + more ≤ 64) }
    ensures ok { IfOk result (λ t. t ≡ token.now) }
    ensures err { IfErr result (λ e. (m : ℕ) → m ≡ depth + more → (z : State) → StopsBy e (go m z)) }
{
    match nest(depth, more) {
        Ok(_) => match copy(alloc, token) {
            Ok(token) => Ok(token),
            Err(Memory) => Err(Stop::Memory),
        },
        Err(stop) => Err(stop),
    }
}

/// Lets go of a production. That an enum of so many parts is dropped is proved here alone.
pub fn drop_frame(frame: Frame) {
    drop(frame);
}

/// Lets go of what is wanted or had.
fn drop_goal(goal: Goal) {
    drop(goal);
}

/// The reader behind a token that stands so much deeper than a production.
pub fn deeper(depth: u32, more: u32, goal: Goal, stack: Vec<Frame>) -> Result<Reader, Stop>
    ensures { Moves result (go (depth + more) (of_goal goal (stack_of stack.items))) }
{
    match nest(depth, more) {
        Ok(_) => Ok(inside(goal, stack)),
        Err(stop) => {
            drop_goal(goal);
            drop(stack);
            Err(stop)
        }
    }
}

/// The same behind a token that has to be a symbol.
pub fn behind(
    token: &Token,
    symbol: u8,
    depth: u32,
    more: u32,
    goal: Goal,
    stack: Vec<Frame>,
) -> Result<Reader, Stop>
    ensures { Moves result (only (is token.now.kind (Symbol symbol)) (depth + more) (of_goal goal (stack_of stack.items))) }
{
    match expect(token, symbol, depth, more) {
        Ok(_) => Ok(inside(goal, stack)),
        Err(stop) => {
            drop_goal(goal);
            drop(stack);
            Err(stop)
        }
    }
}

/// The reader inside of one more open production, behind a token that may stand there.
pub fn entered(frame: Frame, goal: Goal, stack: Vec<Frame>) -> Result<Reader, Stop>
    ensures { (m : ℕ) → m ≤ 64 → Moves result (go m (of_goal goal (frame_of frame ∷ stack_of stack.items))) }
{
    match push(stack, frame) {
        Ok(stack) => Ok(inside(goal, stack)),
        Err(Memory) => {
            drop_goal(goal);
            Err(Stop::Memory)
        }
    }
}

/// The expression within a production, at the nesting of the token before it.
pub fn within(depth: u32, more: u32, frame: Frame, stack: Vec<Frame>) -> Result<Reader, Stop>
    ensures { Moves result (go (depth + more) (want (depth + more) (frame_of frame ∷ stack_of stack.items))) }
{
    match nest(depth, more) {
        Ok(inner) => entered(frame, Goal::Expr(ExprGoal::Want(inner)), stack),
        Err(stop) => {
            drop_frame(frame);
            drop(stack);
            Err(stop)
        }
    }
}

/// The expression within a production, one deeper than the token before it.
pub fn below(depth: u32, frame: Frame, stack: Vec<Frame>) -> Result<Reader, Stop>
    ensures { Moves result (go depth (want (depth + 1) (frame_of frame ∷ stack_of stack.items))) }
{
    match level(depth) {
        Ok(nesting) => entered(frame, Goal::Expr(ExprGoal::Want(nesting + 1)), stack),
        Err(stop) => {
            drop_frame(frame);
            drop(stack);
            Err(stop)
        }
    }
}

/// The expression within a production, behind a token that has to be a symbol.
pub fn open_expr(
    token: &Token,
    symbol: u8,
    depth: u32,
    more: u32,
    frame: Frame,
    stack: Vec<Frame>,
) -> Result<Reader, Stop>
    ensures { Moves result (only (is token.now.kind (Symbol symbol)) (depth + more) (want (depth + 1) (frame_of frame ∷ stack_of stack.items))) }
{
    match expect(token, symbol, depth, more) {
        Ok(_) => entered(frame, Goal::Expr(ExprGoal::Want(depth + 1)), stack),
        Err(stop) => {
            drop_frame(frame);
            drop(stack);
            Err(stop)
        }
    }
}

/// The statement within a production, behind a token that has to be a symbol.
pub fn open_stmt(
    token: &Token,
    symbol: u8,
    depth: u32,
    frame: Frame,
    stack: Vec<Frame>,
) -> Result<Reader, Stop>
    ensures { Moves result (only (is token.now.kind (Symbol symbol)) (depth + 1) (stmt (depth + 1) (frame_of frame ∷ stack_of stack.items))) }
{
    match expect(token, symbol, depth, 1) {
        Ok(inner) => entered(frame, Goal::Stmt(StmtGoal::Stmt(inner)), stack),
        Err(stop) => {
            drop_frame(frame);
            drop(stack);
            Err(stop)
        }
    }
}
