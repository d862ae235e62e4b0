ghost use Rattle.std.specs.Prelude.{◌≡◌, ℕ, ◌≤◌, ◌∷◌, IfOk};
ghost use Rattle.ix_tree.specs.Machine.{settle, have, hold, level, made, settle_stmt, done, hold_stmt, made_stmt};
ghost use Rattle.ix_parse_state.specs.Parts.{part_of};
ghost use Rattle.ix_parse_state.specs.Views.{stack_of, frame_of, done_of, operator_frame, stmt_frame};

use crate::block::{choice, choice_else, looped, spawned};
use crate::frame::{Frame, OperatorFrame, StmtFrame};
use crate::node::{binary, cast, choose, unary};
use crate::operator::power;
use crate::part::Part;
use crate::stack::{bottom, pop, push};
use ix_bits::Memory;
use ix_tree::Stmt;
use std::alloc::Global;

/// An expression that is had, the nesting at which it stands, and what is open around it.
#[derive(Drop)]
pub struct Had {
    pub depth: u32,
    pub part: Part,
    pub stack: Vec<Frame>,
}

/// A statement that is had, and what is open around it.
#[derive(Drop)]
pub struct HadStmt {
    pub stmt: Stmt,
    pub stack: Vec<Frame>,
}

/// How tightly an operator before its operand, or a cast, holds it.
const PREFIX_POWER: u8 = 24;

/// How tightly an open operator holds its operand.
fn hold(frame: &OperatorFrame) -> u8
    ensures { result ≡ hold (operator_frame frame.now) }
{
    match frame {
        OperatorFrame::Unary(_, _, _) => PREFIX_POWER,
        OperatorFrame::Cast(_, _, _) => PREFIX_POWER,
        OperatorFrame::Binary(operand) => power(&operand.token),
        OperatorFrame::Else(_, _, _) => 1,
    }
}

/// The nesting at which an open operator stands.
fn level_of(frame: &OperatorFrame) -> u32
    ensures { (d : ℕ) → result ≡ level d (operator_frame frame.now) }
{
    match frame {
        OperatorFrame::Unary(depth, _, _) => *depth,
        OperatorFrame::Cast(depth, _, _) => *depth,
        OperatorFrame::Binary(operand) => operand.depth,
        OperatorFrame::Else(depth, _, _) => *depth,
    }
}

/// The whole expression that an open operator makes with its last operand.
fn ended(alloc: Global, frame: OperatorFrame, part: Part) -> Result<Part, Memory>
    ensures { IfOk result (λ r. part_of r ≡ made (part_of part) (operator_frame frame)) }
{
    match frame {
        OperatorFrame::Unary(_, first, op) => unary(alloc, &first, op, part),
        OperatorFrame::Cast(_, first, to) => cast(alloc, &first, to, part),
        OperatorFrame::Binary(operand) => binary(alloc, operand, part),
        OperatorFrame::Else(_, c, x) => choose(alloc, c, x, part),
    }
}

/// The expression that is had, where the innermost open production stays open.
fn keep(depth: u32, part: Part, frame: Frame, stack: Vec<Frame>) -> Result<Had, Memory>
    ensures { IfOk result (λ h. have h.depth (part_of h.part) (stack_of h.stack.items) ≡ have depth (part_of part) (frame_of frame ∷ stack_of stack.items)) }
{
    match push(stack, frame) {
        Ok(stack) => Ok(Had { depth, part, stack }),
        Err(Memory) => {
            drop(part);
            Err(Memory)
        }
    }
}

/// Ends the productions of an expression that a token of this power ends.
pub fn settle(
    alloc: Global,
    power: u8,
    depth: u32,
    part: Part,
    stack: Vec<Frame>,
) -> Result<Had, Memory>
    requires { 1 ≤ power }
    ensures { IfOk result (λ h. have h.depth (part_of h.part) (stack_of h.stack.items) ≡ settle power depth (part_of part) (stack_of stack.items)) }
{
    let (frame, stack) = match pop(stack) {
        None => return Ok(Had {
            depth,
            part,
            stack: bottom(alloc),
        }),
        Some(top) => top,
    };
    match frame {
        Frame::Operator(frame) => {
            if power > hold(&frame) {
                return keep(depth, part, Frame::Operator(frame), stack);
            }
            let depth = level_of(&frame);
            let Ok(part) = ended(alloc, frame, part) else {
                drop(stack);
                return Err(Memory);
            };
            settle(alloc, power, depth, part, stack)
        }
        other => keep(depth, part, other, stack),
    }
}

/// How tightly an open statement holds its last statement.
fn hold_stmt(frame: &StmtFrame) -> u8
    ensures { result ≡ hold_stmt (stmt_frame frame.now) }
{
    match frame {
        StmtFrame::Branch(_, _, _) => 1,
        StmtFrame::Other(_, _, _, _) => 2,
        StmtFrame::Loop(_, _, _, _) => 2,
        StmtFrame::Spawn(_, _) => 2,
    }
}

/// The whole statement that an open one makes with its last statement.
fn ended_stmt(alloc: Global, frame: StmtFrame, stmt: Stmt) -> Result<Stmt, Memory>
    ensures { IfOk result (λ r. done_of r ≡ made_stmt (done_of stmt) (stmt_frame frame)) }
{
    match frame {
        StmtFrame::Branch(_, first, condition) => choice(alloc, &first, condition, stmt),
        StmtFrame::Other(_, first, condition, branch) => choice_else(
            alloc, &first, condition, branch, stmt,
        ),
        StmtFrame::Loop(head, start, test, last) => looped(alloc, head, start, test, last, stmt),
        StmtFrame::Spawn(_, first) => spawned(alloc, &first, stmt),
    }
}

/// The statement that is had, where the innermost open production stays open.
fn keep_stmt(stmt: Stmt, frame: Frame, stack: Vec<Frame>) -> Result<HadStmt, Memory>
    ensures { IfOk result (λ h. done (done_of h.stmt) (stack_of h.stack.items) ≡ done (done_of stmt) (frame_of frame ∷ stack_of stack.items)) }
{
    match push(stack, frame) {
        Ok(stack) => Ok(HadStmt { stmt, stack }),
        Err(Memory) => {
            drop(stmt);
            Err(Memory)
        }
    }
}

/// Ends the statements that a token of this power ends.
pub fn settle_stmt(
    alloc: Global,
    power: u8,
    stmt: Stmt,
    stack: Vec<Frame>,
) -> Result<HadStmt, Memory>
    requires { 1 ≤ power }
    ensures { IfOk result (λ h. done (done_of h.stmt) (stack_of h.stack.items) ≡ settle_stmt power (done_of stmt) (stack_of stack.items)) }
{
    let (frame, stack) = match pop(stack) {
        None => return Ok(HadStmt {
            stmt,
            stack: bottom(alloc),
        }),
        Some(top) => top,
    };
    match frame {
        Frame::Stmt(frame) => {
            if power > hold_stmt(&frame) {
                return keep_stmt(stmt, Frame::Stmt(frame), stack);
            }
            let Ok(stmt) = ended_stmt(alloc, frame, stmt) else {
                drop(stack);
                return Err(Memory);
            };
            settle_stmt(alloc, power, stmt, stack)
        }
        other => keep_stmt(stmt, other, stack),
    }
}
