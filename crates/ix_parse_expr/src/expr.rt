ghost use Rattle.std.specs.Prelude.{◌≡◌, ◌+◌, ◌≤◌, ◌∷◌, true, IfOk, IfErr};
ghost use Rattle.ix_tree.specs.Tokens.{open_round};
ghost use Rattle.ix_tree.specs.Trees.{power, before};
ghost use Rattle.ix_tree.specs.Machine.{State, act, go, only, is, want, opened, cast_word, f_binary, f_index, unary_of, begin_expr, want_unary, after_open, after_cast_word, after, settle, bare_cast, step};
ghost use Rattle.ix_parse_state.specs.Parts.{part_of};
ghost use Rattle.ix_parse_state.specs.Views.{stack_of, of_expr};
ghost use Rattle.ix_parse_state.specs.Moves.{Moves, StopsBy};

use crate::close::close;
use crate::enter::{below, copied, deeper, entered, within};
use ix_bits::Memory;
use ix_parse_state::chain::{Indexed, Operand};
use ix_parse_state::frame::{ClosingFrame, Frame, OperatorFrame, TypeFrame};
use ix_parse_state::look::{MOST_NESTING, expect, is_symbol, is_word, nest};
use ix_parse_state::node::{INDEX_POWER, leaf};
use ix_parse_state::operator::{power, primary, unary_operator};
use ix_parse_state::part::Part;
use ix_parse_state::reader::in_expr;
use ix_parse_state::settle::{Had, settle};
use ix_parse_state::sign::{CLOSE_ROUND, LESS, OPEN_ROUND, SIGNED, UNSIGNED};
use ix_parse_state::stack::push;
use ix_parse_state::state::{ExprGoal, Goal, Reader, TypeGoal};
use ix_parse_state::stop::Stop;
use ix_parse_state::types::{begin_type, is_type_word};
use ix_tree::{CastTo, Token};
use std::alloc::Global;

/// What the first token of an expression leads to.
pub fn begin_expr(
    alloc: Global,
    depth: u32,
    stack: Vec<Frame>,
    token: &Token,
) -> Result<Reader, Stop>
    ensures { Moves result (begin_expr depth (stack_of stack.items) token.now) }
{
    match primary(alloc, token) {
        Ok(Some(tree)) => {
            let goal = ExprGoal::Have(depth, leaf(token, tree));
            deeper(depth, 0, Goal::Expr(goal), stack)
        }
        Ok(None) => begin_unary(alloc, depth, stack, token),
        Err(Memory) => {
            drop(stack);
            Err(Stop::Memory)
        }
    }
}

/// What the first token of an expression leads to that is more than one token.
fn begin_unary(alloc: Global, depth: u32, stack: Vec<Frame>, token: &Token) -> Result<Reader, Stop>
    ensures { Moves result (want_unary depth (stack_of stack.items) token.now (unary_of token.now.kind)) }
{
    match unary_operator(token) {
        Some(op) => match copied(alloc, depth, 0, token) {
            Ok(token) => {
                let frame = OperatorFrame::Unary(depth, token, op);
                let goal = ExprGoal::Want(depth + 1);
                entered(Frame::Operator(frame), Goal::Expr(goal), stack)
            }
            Err(stop) => {
                drop(stack);
                Err(stop)
            }
        },
        None => begin_round(alloc, depth, stack, token),
    }
}

/// What `(` leads to where an expression is wanted.
fn begin_round(alloc: Global, depth: u32, stack: Vec<Frame>, token: &Token) -> Result<Reader, Stop>
    ensures { Moves result (only (is token.now.kind open_round) (depth + 1) (opened depth token.now (stack_of stack.items))) }
{
    match opening(alloc, depth, token) {
        Ok(token) => Ok(in_expr(ExprGoal::Opened(depth, token), stack)),
        Err(stop) => {
            drop(stack);
            Err(stop)
        }
    }
}

/// A copy of the token, which has to be a `(` that may stand there.
fn opening(alloc: Global, depth: u32, token: &Token) -> Result<Token, Stop>
    ensures symbol { IfOk result (λ _. is token.now.kind open_round ≡ true) }
    ensures level { IfOk result (λ _. depth + 1 ≤ 64) }
    ensures ok { IfOk result (λ t. t ≡ token.now) }
    ensures err { IfErr result (λ e. (z : State) → StopsBy e (only (is token.now.kind open_round) (depth + 1) z)) }
{
    if is_symbol(token, OPEN_ROUND) {
        copied(alloc, depth, 1, token)
    } else {
        Err(Stop::Refused)
    }
}

/// What goes on behind `(`.
fn after_open(
    alloc: Global,
    depth: u32,
    first: Token,
    stack: Vec<Frame>,
    token: &Token,
) -> Result<Reader, Stop>
    ensures { Moves result (after_open depth first (stack_of stack.items) token.now) }
{
    if is_word(token, SIGNED) {
        return begin_cast(alloc, depth, first, true, stack, token);
    }
    if is_word(token, UNSIGNED) {
        return begin_cast(alloc, depth, first, false, stack, token);
    }
    let inner = depth.saturating_add(1);
    if is_type_word(token) {
        return match push(stack, Frame::Type(TypeFrame::Cast(depth, first))) {
            Ok(stack) => begin_type(alloc, inner, stack, token),
            Err(Memory) => Err(Stop::Memory),
        };
    }
    match push(stack, Frame::Closing(ClosingFrame::Round(depth, first))) {
        Ok(stack) => begin_expr(alloc, inner, stack, token),
        Err(Memory) => Err(Stop::Memory),
    }
}

/// What `signed` or `unsigned` leads to behind `(`.
fn begin_cast(
    alloc: Global,
    depth: u32,
    first: Token,
    signed: bool,
    stack: Vec<Frame>,
    token: &Token,
) -> Result<Reader, Stop>
    ensures { Moves result (go (depth + 1) (cast_word depth first token.now signed (stack_of stack.items))) }
{
    match copied(alloc, depth, 1, token) {
        Ok(word) => Ok(in_expr(ExprGoal::CastWord(depth, first, word, signed), stack)),
        Err(stop) => {
            drop(first);
            drop(stack);
            Err(stop)
        }
    }
}

/// What goes on behind `( signed` or `( unsigned`.
fn after_cast_word(
    depth: u32,
    first: Token,
    word: Token,
    signed: bool,
    stack: Vec<Frame>,
    token: &Token,
) -> Result<Reader, Stop>
    ensures { Moves result (after_cast_word depth first word signed (stack_of stack.items) token.now) }
{
    if is_symbol(token, CLOSE_ROUND) {
        drop(word);
        let frame = OperatorFrame::Cast(depth, first, bare_cast(signed));
        return within(depth, 1, Frame::Operator(frame), stack);
    }
    match expect(token, LESS, depth, 1) {
        Ok(inner) => {
            let frame = TypeFrame::Cast(depth, first);
            let goal = TypeGoal::Width(inner, word, signed);
            entered(Frame::Type(frame), Goal::Type(goal), stack)
        }
        Err(stop) => {
            drop(first);
            drop(word);
            drop(stack);
            Err(stop)
        }
    }
}

/// The cast to a signedness, without a width.
fn bare_cast(signed: bool) -> CastTo
    ensures { result ≡ bare_cast signed }
{
    if signed {
        CastTo::Signed
    } else {
        CastTo::Unsigned
    }
}

/// How many operators of this power the chain of the expression has, if one more comes behind it.
#[tactic(auto, unfolding(ix_tree::specs::Trees::before))]
fn before(power: u8, part: &Part) -> u32
    ensures { result ≡ before power (part_of part.now) }
{
    if part.chain == power { part.count } else { 0 }
}

/// What goes on behind an expression.
#[tactic(auto, unfolding(ix_tree::specs::Machine::after))]
fn after(
    alloc: Global,
    depth: u32,
    part: Part,
    stack: Vec<Frame>,
    token: &Token,
) -> Result<Reader, Stop>
    ensures { Moves result (after (power token.now.kind) depth (part_of part) (stack_of stack.items) token.now) }
{
    let power = power(token);
    if power == 1 {
        return close(alloc, part, stack, token);
    }
    if power == 2 {
        return below(
            depth,
            Frame::Closing(ClosingFrame::Then(depth, part)),
            stack,
        );
    }
    if power == INDEX_POWER {
        return open_index(depth, part, stack);
    }
    after_operand(alloc, depth, part, stack, token)
}

/// The expression within the index behind an expression.
fn open_index(depth: u32, part: Part, stack: Vec<Frame>) -> Result<Reader, Stop>
    ensures { Moves result (go (depth + (before 26 (part_of part) + 1)) (want (depth + (before 26 (part_of part) + 1)) (f_index depth (part_of part) ∷ stack_of stack.items))) }
{
    let count = before(INDEX_POWER, &part);
    match nest_index(depth, count) {
        Ok(inner) => {
            let frame = ClosingFrame::Index(Indexed {
                depth,
                left: part,
                count: count + 1,
            });
            let goal = ExprGoal::Want(inner);
            entered(Frame::Closing(frame), Goal::Expr(goal), stack)
        }
        Err(stop) => {
            drop(part);
            drop(stack);
            Err(stop)
        }
    }
}

/// The nesting of a token of an index behind so many others.
fn nest_index(depth: u32, before: u32) -> Result<u32, Stop>
    ensures ok { IfOk result (λ m. (m ≡ depth + (before + 1)) × (m ≤ 64)) }
    ensures err { IfErr result (λ e. (z : State) → StopsBy e (go (depth + (before + 1)) z)) }
{
    if before >= MOST_NESTING {
        return Err(Stop::Deep);
    }
    nest(depth, before + 1)
}

/// The second operand of the operator that the token is.
fn after_operand(
    alloc: Global,
    depth: u32,
    part: Part,
    stack: Vec<Frame>,
    token: &Token,
) -> Result<Reader, Stop>
    ensures { Moves result (go (depth + before (power token.now.kind) (part_of part)) (want (depth + (before (power token.now.kind) (part_of part) + 1)) (f_binary depth (part_of part) token.now ∷ stack_of stack.items))) }
{
    let before = before(power(token), &part);
    match copied(alloc, depth, before, token) {
        Ok(token) => {
            let count = before + 1;
            let frame = OperatorFrame::Binary(Operand {
                depth,
                left: part,
                token,
                count,
            });
            let goal = ExprGoal::Want(depth + count);
            entered(Frame::Operator(frame), Goal::Expr(goal), stack)
        }
        Err(stop) => {
            drop(part);
            drop(stack);
            Err(stop)
        }
    }
}

/// What the token leads to inside of an expression.
#[tactic(auto, unfolding(ix_tree::specs::Machine::step))]
pub fn expr_step(
    alloc: Global,
    goal: ExprGoal,
    stack: Vec<Frame>,
    token: &Token,
) -> Result<Reader, Stop>
    ensures { Moves result (step (of_expr goal (stack_of stack.items)) token.now) }
{
    match goal {
        ExprGoal::Want(depth) => begin_expr(alloc, depth, stack, token),
        ExprGoal::Have(depth, part) => after_settled(alloc, depth, part, stack, token),
        ExprGoal::Opened(depth, first) => after_open(alloc, depth, first, stack, token),
        ExprGoal::CastWord(depth, first, word, signed) => {
            after_cast_word(depth, first, word, signed, stack, token)
        }
    }
}

/// What goes on behind an expression, where the token first ends some of what is open.
fn after_settled(
    alloc: Global,
    depth: u32,
    part: Part,
    stack: Vec<Frame>,
    token: &Token,
) -> Result<Reader, Stop>
    ensures { Moves result (act token.now (settle (power token.now.kind) depth (part_of part) (stack_of stack.items))) }
{
    match settle(alloc, power(token), depth, part, stack) {
        Ok(Had { depth, part, stack }) => after(alloc, depth, part, stack, token),
        Err(Memory) => Err(Stop::Memory),
    }
}
