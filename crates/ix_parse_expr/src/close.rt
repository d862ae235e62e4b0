ghost use Rattle.std.specs.Prelude.{◌≡◌, ◌+◌, ℕ, [], ◌∷◌, ◌++◌, map, IfOk};
ghost use Rattle.ix_tree.specs.View.{view, view_place, view_assign};
ghost use Rattle.ix_tree.specs.Productions.{place_x, place_mem, place_mem_range, assign_set};
ghost use Rattle.ix_tree.specs.Machine.{go, want, close, f_round, f_index, f_range, f_then, f_x, f_mem, f_mem_range, f_if, f_start, f_test, f_entries};
ghost use Rattle.ix_parse_state.specs.Parts.{part_of};
ghost use Rattle.ix_parse_state.specs.Views.{stack_of, closing_frame, named_of};
ghost use Rattle.ix_parse_state.specs.Moves.{Moves};

use crate::assign::after_assign;
use crate::decl::after_value;
use crate::enter::{behind, drop_frame, entered, open_expr, open_stmt, within};
use ix_bits::{BinOp, List, Memory};
use ix_parse_state::chain::Indexed;
use ix_parse_state::frame::{
    AssignFrame, ClosingFrame, Frame, NamedState, OpenLoop, OperatorFrame, StmtFrame,
};
use ix_parse_state::look::{expect, is_symbol};
use ix_parse_state::node::{between, index, range, round};
use ix_parse_state::part::Part;
use ix_parse_state::reader::{in_expr, in_text};
use ix_parse_state::sign::{CLOSE_BRACE, CLOSE_ROUND, CLOSE_SQUARE, COLON, COMMA, SEMICOLON};
use ix_parse_state::stack::pop;
use ix_parse_state::state::{AssignGoal, ExprGoal, Goal, Reader, TextGoal};
use ix_parse_state::stop::Stop;
use ix_tree::{Assign, Expr, Lvalue, LvalueKind, Span, Token};
use std::alloc::Global;

/// What goes on behind an expression with a token that is no operator.
pub fn close(alloc: Global, part: Part, stack: Vec<Frame>, token: &Token) -> Result<Reader, Stop>
    ensures { (e : ℕ) → Moves result (close e (part_of part) (stack_of stack.items) token.now) }
{
    match pop(stack) {
        Some((frame, stack)) => match frame {
            Frame::Closing(frame) => close_frame(alloc, part, frame, stack, token),
            other => {
                drop_frame(other);
                drop(stack);
                drop(part);
                Err(Stop::Refused)
            }
        },
        None => {
            drop(part);
            Err(Stop::Refused)
        }
    }
}

/// What goes on behind the expression of this production.
fn close_frame(
    alloc: Global,
    part: Part,
    frame: ClosingFrame,
    stack: Vec<Frame>,
    token: &Token,
) -> Result<Reader, Stop>
    ensures { (e : ℕ) → Moves result (close e (part_of part) (closing_frame frame ∷ stack_of stack.items) token.now) }
{
    match frame {
        ClosingFrame::Round(depth, first) => close_round(depth, first, part, stack, token),
        ClosingFrame::Index(x) => close_index(alloc, x, part, stack, token),
        ClosingFrame::Range(x, high) => close_range(alloc, x, high, part, stack, token),
        ClosingFrame::Then(depth, condition) => close_then(depth, condition, part, stack, token),
        ClosingFrame::X(depth, word) => close_x(depth, word, part, stack, token),
        ClosingFrame::Mem(depth, word) => close_mem(depth, word, part, stack, token),
        ClosingFrame::MemRange(depth, word, high) => {
            close_mem_range(depth, word, high, part, stack, token)
        }
        ClosingFrame::Set(_, place, op) => after_assign(alloc, set(place, op, part), stack, token),
        ClosingFrame::Value(first, name) => after_value(alloc, first, name, part, stack, token),
        ClosingFrame::If(depth, first) => close_if(depth, first, part, stack, token),
        ClosingFrame::Start(head) => close_start(head, part, stack, token),
        ClosingFrame::Test(head, start) => close_test(head, start, part, stack, token),
        ClosingFrame::Entries(table, length, entries) => {
            close_entry(table, length, entries, part, stack, token)
        }
    }
}

/// The end of round brackets around an expression.
fn close_round(
    depth: u32,
    first: Token,
    part: Part,
    stack: Vec<Frame>,
    token: &Token,
) -> Result<Reader, Stop>
    ensures { Moves result (close 0 (part_of part) (f_round depth first ∷ stack_of stack.items) token.now) }
{
    let goal = ExprGoal::Have(depth, round(&first, part, token));
    drop(first);
    behind(token, CLOSE_ROUND, depth, 1, Goal::Expr(goal), stack)
}

/// The end of an index, or the `:` between its two parts.
fn close_index(
    alloc: Global,
    x: Indexed,
    part: Part,
    stack: Vec<Frame>,
    token: &Token,
) -> Result<Reader, Stop>
    ensures { Moves result (close 0 (part_of part) (f_index x.depth (part_of x.left) ∷ stack_of stack.items) token.now) }
{
    let depth = x.depth;
    if is_symbol(token, COLON) {
        let count = x.count;
        return within(
            depth,
            count,
            Frame::Closing(ClosingFrame::Range(x, part)),
            stack,
        );
    }
    if let Err(stop) = expect(token, CLOSE_SQUARE, depth, x.count) {
        drop(x);
        drop(part);
        drop(stack);
        return Err(stop);
    }
    match index(alloc, x, part, token) {
        Ok(part) => Ok(in_expr(ExprGoal::Have(depth, part), stack)),
        Err(Memory) => {
            drop(stack);
            Err(Stop::Memory)
        }
    }
}

/// The end of an index of two parts.
fn close_range(
    alloc: Global,
    x: Indexed,
    high: Part,
    part: Part,
    stack: Vec<Frame>,
    token: &Token,
) -> Result<Reader, Stop>
    ensures { Moves result (close 0 (part_of part) (f_range x.depth (part_of x.left) (part_of high) ∷ stack_of stack.items) token.now) }
{
    let depth = x.depth;
    if let Err(stop) = expect(token, CLOSE_SQUARE, depth, x.count) {
        drop(x);
        drop(high);
        drop(part);
        drop(stack);
        return Err(stop);
    }
    match range(alloc, x, high, part, token) {
        Ok(part) => Ok(in_expr(ExprGoal::Have(depth, part), stack)),
        Err(Memory) => {
            drop(stack);
            Err(Stop::Memory)
        }
    }
}

/// The `:` of a choice.
fn close_then(
    depth: u32,
    condition: Part,
    part: Part,
    stack: Vec<Frame>,
    token: &Token,
) -> Result<Reader, Stop>
    ensures { Moves result (close 0 (part_of part) (f_then depth (part_of condition) ∷ stack_of stack.items) token.now) }
{
    let frame = OperatorFrame::Else(depth, condition, part);
    open_expr(token, COLON, depth, 0, Frame::Operator(frame), stack)
}

/// The end of the index of a written register.
fn close_x(
    depth: u32,
    word: Token,
    part: Part,
    stack: Vec<Frame>,
    token: &Token,
) -> Result<Reader, Stop>
    ensures { Moves result (close 0 (part_of part) (f_x depth word ∷ stack_of stack.items) token.now) }
{
    let goal = AssignGoal::Placed(x_place(&word, part, token));
    drop(word);
    behind(token, CLOSE_SQUARE, depth, 1, Goal::Assign(goal), stack)
}

/// The end of the index of written memory, or the `:` between its two parts.
fn close_mem(
    depth: u32,
    word: Token,
    part: Part,
    stack: Vec<Frame>,
    token: &Token,
) -> Result<Reader, Stop>
    ensures { Moves result (close 0 (part_of part) (f_mem depth word ∷ stack_of stack.items) token.now) }
{
    if is_symbol(token, COLON) {
        let frame = ClosingFrame::MemRange(depth, word, part);
        return within(depth, 1, Frame::Closing(frame), stack);
    }
    let goal = AssignGoal::Placed(mem_place(&word, part, token));
    drop(word);
    behind(token, CLOSE_SQUARE, depth, 1, Goal::Assign(goal), stack)
}

/// The end of the index of two parts of written memory.
fn close_mem_range(
    depth: u32,
    word: Token,
    high: Part,
    part: Part,
    stack: Vec<Frame>,
    token: &Token,
) -> Result<Reader, Stop>
    ensures { Moves result (close 0 (part_of part) (f_mem_range depth word (part_of high) ∷ stack_of stack.items) token.now) }
{
    let goal = AssignGoal::Placed(mem_range_place(&word, high, part, token));
    drop(word);
    behind(token, CLOSE_SQUARE, depth, 1, Goal::Assign(goal), stack)
}

/// The end of the condition of an `if`.
fn close_if(
    depth: u32,
    first: Token,
    part: Part,
    stack: Vec<Frame>,
    token: &Token,
) -> Result<Reader, Stop>
    ensures { Moves result (close 0 (part_of part) (f_if depth first ∷ stack_of stack.items) token.now) }
{
    let frame = StmtFrame::Branch(depth, first, part);
    open_stmt(token, CLOSE_ROUND, depth, Frame::Stmt(frame), stack)
}

/// The end of the start in a loop's head.
fn close_start(head: OpenLoop, part: Part, stack: Vec<Frame>, token: &Token) -> Result<Reader, Stop>
    ensures { Moves result (close 0 (part_of part) (f_start head.depth head.first head.ty head.name ∷ stack_of stack.items) token.now) }
{
    let depth = head.depth;
    let frame = ClosingFrame::Test(head, part);
    open_expr(token, SEMICOLON, depth, 1, Frame::Closing(frame), stack)
}

/// The end of the test in a loop's head.
fn close_test(
    head: OpenLoop,
    start: Part,
    part: Part,
    stack: Vec<Frame>,
    token: &Token,
) -> Result<Reader, Stop>
    ensures { Moves result (close 0 (part_of part) (f_test head.depth head.first head.ty head.name (part_of start) ∷ stack_of stack.items) token.now) }
{
    match expect(token, SEMICOLON, head.depth, 1) {
        Ok(inner) => {
            let frame = AssignFrame::Last(head, start, part);
            let goal = AssignGoal::Assigning(inner);
            entered(Frame::Assign(frame), Goal::Assign(goal), stack)
        }
        Err(stop) => {
            drop(head);
            drop(start);
            drop(part);
            drop(stack);
            Err(stop)
        }
    }
}

/// The end of an entry of a table.
fn close_entry(
    table: NamedState,
    length: u128,
    entries: List<Expr>,
    part: Part,
    stack: Vec<Frame>,
    token: &Token,
) -> Result<Reader, Stop>
    ensures { Moves result (close 0 (part_of part) (f_entries (named_of table) length (map view entries) ∷ stack_of stack.items) token.now) }
{
    if is_symbol(token, COMMA) {
        return next_entry(table, length, entries, part, stack);
    }
    drop(stack);
    if !is_symbol(token, CLOSE_BRACE) {
        drop(table);
        drop(entries);
        drop(part);
        return Err(Stop::Refused);
    }
    match more(entries, part) {
        Ok(entries) => Ok(in_text(TextGoal::TableEnd(table, length, entries))),
        Err(Memory) => {
            drop(table);
            Err(Stop::Memory)
        }
    }
}

/// The next entry of a table, behind a `,`.
fn next_entry(
    table: NamedState,
    length: u128,
    entries: List<Expr>,
    part: Part,
    stack: Vec<Frame>,
) -> Result<Reader, Stop>
    ensures { Moves result (go 0 (want 0 (f_entries (named_of table) length (map view entries ++ (part_of part).tree ∷ []) ∷ stack_of stack.items))) }
{
    match more(entries, part) {
        Ok(entries) => {
            let frame = ClosingFrame::Entries(table, length, entries);
            entered(Frame::Closing(frame), Goal::Expr(ExprGoal::Want(0)), stack)
        }
        Err(Memory) => {
            drop(table);
            drop(stack);
            Err(Stop::Memory)
        }
    }
}

/// The entries with one more.
fn more(mut entries: List<Expr>, part: Part) -> Result<List<Expr>, Memory>
    ensures { IfOk result (λ xs. map view xs ≡ map view entries ++ (part_of part).tree ∷ []) }
{
    match entries.push(part.tree) {
        Ok(()) => Ok(entries),
        Err(_) => Err(Memory),
    }
}

/// A register that is written.
fn x_place(word: &Token, v: Part, last: &Token) -> Lvalue
    ensures { view_place result ≡ place_x word.now (part_of v) last.now }
{
    Lvalue {
        span: between(word, last),
        kind: LvalueKind::X(v.tree),
    }
}

/// Memory that is written, at one address.
fn mem_place(word: &Token, v: Part, last: &Token) -> Lvalue
    ensures { view_place result ≡ place_mem word.now (part_of v) last.now }
{
    Lvalue {
        span: between(word, last),
        kind: LvalueKind::Mem(v.tree, None),
    }
}

/// Memory that is written, over a range of addresses.
fn mem_range_place(word: &Token, high: Part, low: Part, last: &Token) -> Lvalue
    ensures { view_place result ≡ place_mem_range word.now (part_of high) (part_of low) last.now }
{
    Lvalue {
        span: between(word, last),
        kind: LvalueKind::Mem(high.tree, Some(low.tree)),
    }
}

/// An assignment of a value to a place.
fn set(target: Lvalue, op: Option<BinOp>, v: Part) -> Assign
    ensures { view_assign result ≡ assign_set (view_place target) op (part_of v) }
{
    Assign {
        span: Span {
            from: target.span.from,
            to: v.to,
        },
        target,
        op,
        value: v.tree,
    }
}
