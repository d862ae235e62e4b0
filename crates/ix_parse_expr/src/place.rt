ghost use Rattle.std.specs.Prelude.{◌≡◌, ◌+◌, [], ◌∷◌, IfOk, IfErr};
ghost use Rattle.ix_tree.specs.declared.token.TokenKind.TheVariants.{Word};
ghost use Rattle.ix_tree.specs.Trees.{e_literal};
ghost use Rattle.ix_tree.specs.Productions.{place_name, place_pc, bit_type, one_bit, assign_before, assign_after};
ghost use Rattle.ix_tree.specs.View.{view, view_place, view_assign};
ghost use Rattle.ix_tree.specs.Machine.{Stack, begin_place, after_place, set_or_step, step_of, assign_of, around};
ghost use Rattle.ix_parse_state.specs.Views.{stack_of, frame_of, assign_frame, of_assign};
ghost use Rattle.ix_parse_state.specs.Moves.{Moves, GoesTo, StopsBy};

use crate::assign::after_assign;
use crate::enter::{copied, deeper, entered};
use ix_bits::{BinOp, Bits, Memory, Name, Ty};
use ix_parse_state::frame::{AssignFrame, ClosingFrame, Frame};
use ix_parse_state::look::{is_symbol, level, nest};
use ix_parse_state::reader::in_assign;
use ix_parse_state::sign::{
    AND_EQUALS, EQUALS, LEFT_EQUALS, MEM, MINUS_EQUALS, MINUS_MINUS, OR_EQUALS, PC, PLUS_EQUALS,
    PLUS_PLUS, RIGHT_EQUALS, TIMES_EQUALS, X, XOR_EQUALS,
};
use ix_parse_state::stack::{pop, push};
use ix_parse_state::state::{AssignGoal, ExprGoal, Goal, Reader};
use ix_parse_state::stop::Stop;
use ix_tree::{Assign, Expr, ExprKind, Lvalue, LvalueKind, Span, Token, TokenKind};
use std::alloc::Global;

/// What the first token of a place leads to.
pub fn begin_place(
    alloc: Global,
    depth: u32,
    stack: Vec<Frame>,
    token: &Token,
) -> Result<Reader, Stop>
    ensures { Moves result (begin_place depth (stack_of stack.items) token.now token.now.kind) }
{
    match place_goal(alloc, depth, token) {
        Ok(goal) => Ok(in_assign(goal, stack)),
        Err(stop) => {
            drop(stack);
            Err(stop)
        }
    }
}

/// What is had of an assignment behind the first token of a place.
fn place_goal(alloc: Global, depth: u32, token: &Token) -> Result<AssignGoal, Stop>
    ensures ok { (k : Stack) → IfOk result (λ g. GoesTo (of_assign g k) (begin_place depth k token.now token.now.kind)) }
    ensures err { (k : Stack) → IfErr result (λ e. StopsBy e (begin_place depth k token.now token.now.kind)) }
{
    match &token.kind {
        TokenKind::Name(name) => {
            level(depth)?;
            let place = name_place(token, Name::from_text(alloc, name.as_str())?);
            Ok(AssignGoal::Placed(place))
        }
        TokenKind::Word(word) => word_goal(alloc, depth, token, *word),
        _ => Err(Stop::Refused),
    }
}

/// The same behind a reserved word.
fn word_goal(alloc: Global, depth: u32, token: &Token, word: u8) -> Result<AssignGoal, Stop>
    ensures ok { (k : Stack) → IfOk result (λ g. GoesTo (of_assign g k) (begin_place depth k token.now (Word word))) }
    ensures err { (k : Stack) → IfErr result (λ e. StopsBy e (begin_place depth k token.now (Word word))) }
{
    match word {
        PC => match level(depth) {
            Ok(_) => Ok(AssignGoal::Placed(pc_place(token))),
            Err(stop) => Err(stop),
        },
        X => match copied(alloc, depth, 0, token) {
            Ok(word) => Ok(AssignGoal::XSquare(depth, word)),
            Err(stop) => Err(stop),
        },
        MEM => match copied(alloc, depth, 0, token) {
            Ok(word) => Ok(AssignGoal::MemSquare(depth, word)),
            Err(stop) => Err(stop),
        },
        _ => Err(Stop::Refused),
    }
}

/// A name as a place.
fn name_place(token: &Token, name: Name) -> Lvalue
    ensures { view_place result ≡ place_name token.now name }
{
    Lvalue {
        span: token.span,
        kind: LvalueKind::Name(name),
    }
}

/// The program counter as a place.
fn pc_place(token: &Token) -> Lvalue
    ensures { view_place result ≡ place_pc token.now }
{
    Lvalue {
        span: token.span,
        kind: LvalueKind::Pc,
    }
}

/// What goes on behind a place.
pub fn after_place(
    alloc: Global,
    place: Lvalue,
    stack: Vec<Frame>,
    token: &Token,
) -> Result<Reader, Stop>
    ensures { Moves result (after_place (view_place place) (stack_of stack.items) token.now) }
{
    match pop(stack) {
        Some((frame, stack)) => match frame {
            Frame::Assign(frame) => after_place_of(alloc, place, frame, stack, token),
            other => {
                match push(stack, other) {
                    Ok(stack) => set_or_step(place, stack, token),
                    Err(Memory) => {
                        drop(place);
                        Err(Stop::Memory)
                    }
                }
            }
        },
        None => set_or_step(place, none_open(alloc), token),
    }
}

/// The stack of no open production.
fn none_open(alloc: Global) -> Vec<Frame>
    ensures { stack_of result.items ≡ [] }
{
    Vec::new(alloc)
}

/// What goes on behind a place in an assignment of this kind.
fn after_place_of(
    alloc: Global,
    place: Lvalue,
    frame: AssignFrame,
    stack: Vec<Frame>,
    token: &Token,
) -> Result<Reader, Stop>
    ensures { Moves result (after_place (view_place place) (assign_frame frame ∷ stack_of stack.items) token.now) }
{
    match frame {
        AssignFrame::Step(symbol, op) => {
            let assign = stepped_before(&symbol, op, place);
            drop(symbol);
            after_assign(alloc, assign, stack, token)
        }
        other => {
            match push(stack, Frame::Assign(other)) {
                Ok(stack) => set_or_step(place, stack, token),
                Err(Memory) => {
                    drop(place);
                    Err(Stop::Memory)
                }
            }
        }
    }
}

/// What goes on behind a place that no step stands before.
fn set_or_step(place: Lvalue, stack: Vec<Frame>, token: &Token) -> Result<Reader, Stop>
    ensures { Moves result (set_or_step (view_place place) (stack_of stack.items) (assign_of token.now.kind) token.now) }
{
    let (depth, more) = around(stack.as_slice());
    if let Some(op) = assign_of(token) {
        return match nest(depth, more) {
            Ok(depth) => {
                let frame = ClosingFrame::Set(depth, place, op);
                let goal = ExprGoal::Want(depth);
                entered(Frame::Closing(frame), Goal::Expr(goal), stack)
            }
            Err(stop) => {
                drop(place);
                drop(stack);
                Err(stop)
            }
        };
    }
    match step_of(token) {
        Some(op) => {
            let goal = AssignGoal::Assigned(stepped_after(place, op, token));
            deeper(depth, more, Goal::Assign(goal), stack)
        }
        None => {
            drop(place);
            drop(stack);
            Err(Stop::Refused)
        }
    }
}

/// The nesting at which an assignment stands: that of its production, and how much deeper it is.
fn around(stack: &[Frame]) -> (u32, u32)
    ensures { result.0 + result.1 ≡ around (stack_of stack.now) }
{
    match stack.last() {
        None => (0, 0),
        Some(frame) => around_of(frame),
    }
}

/// The nesting at which an assignment stands in this production.
fn around_of(frame: &Frame) -> (u32, u32)
    ensures { (k : Stack) → result.0 + result.1 ≡ around (frame_of frame.now ∷ k) }
{
    match frame {
        Frame::Assign(AssignFrame::Single(depth)) => (*depth, 0),
        Frame::Assign(AssignFrame::Last(head, _, _)) => (head.depth, 1),
        _ => (0, 0),
    }
}

/// The operator of `++` or `--`.
pub fn step_of(token: &Token) -> Option<BinOp>
    ensures { result ≡ step_of token.now.kind }
{
    if is_symbol(token, PLUS_PLUS) {
        return Some(BinOp::Add);
    }
    if is_symbol(token, MINUS_MINUS) {
        return Some(BinOp::Sub);
    }
    None
}

/// The operator of an assignment's symbol, where it is such a symbol: none for `=`.
fn assign_of(token: &Token) -> Option<Option<BinOp>>
    ensures { result ≡ assign_of token.now.kind }
{
    match &token.kind {
        TokenKind::Symbol(n) => match *n {
            EQUALS => Some(None),
            PLUS_EQUALS => Some(Some(BinOp::Add)),
            MINUS_EQUALS => Some(Some(BinOp::Sub)),
            TIMES_EQUALS => Some(Some(BinOp::Mul)),
            AND_EQUALS => Some(Some(BinOp::And)),
            OR_EQUALS => Some(Some(BinOp::Or)),
            XOR_EQUALS => Some(Some(BinOp::Xor)),
            LEFT_EQUALS => Some(Some(BinOp::Shl)),
            RIGHT_EQUALS => Some(Some(BinOp::Shr)),
            _ => None,
        },
        _ => None,
    }
}

/// A step whose symbol stands before the place.
fn stepped_before(symbol: &Token, op: BinOp, place: Lvalue) -> Assign
    ensures { view_assign result ≡ assign_before symbol.now op (view_place place) }
{
    Assign {
        span: Span {
            from: symbol.span.from,
            to: place.span.to,
        },
        target: place,
        op: Some(op),
        value: one(symbol.span),
    }
}

/// A step whose symbol stands behind the place.
fn stepped_after(place: Lvalue, op: BinOp, symbol: &Token) -> Assign
    ensures { view_assign result ≡ assign_after (view_place place) op symbol.now }
{
    Assign {
        span: Span {
            from: place.span.from,
            to: symbol.span.to,
        },
        target: place,
        op: Some(op),
        value: one(symbol.span),
    }
}

/// The literal 1 of a step.
fn one(span: Span) -> Expr
    ensures { view result ≡ e_literal span bit_type one_bit }
{
    Expr {
        span,
        kind: ExprKind::Literal(
            Ty {
                signed: false,
                width: 1,
            },
            Bits { raw: 1, width: 1 },
        ),
    }
}
