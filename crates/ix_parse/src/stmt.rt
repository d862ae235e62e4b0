ghost use Rattle.std.specs.Prelude.{◌≡◌, ◌+◌, [], ◌∷◌, ◌++◌, map, IfOk};
ghost use Rattle.ix_tree.specs.View.{view_decl, view_instr, view_block};
ghost use Rattle.ix_tree.specs.Rows.{view_whole};
ghost use Rattle.ix_tree.specs.Productions.{instr_tree};
ghost use Rattle.ix_tree.specs.Machine.{act, settle_stmt, power_stmt, begin_stmt, begin_type, in_block, after_stmt, always_done, naming, named, if_round, for_round, for_head, for_equals, f_branch, f_behavior, f_always, step};
ghost use Rattle.ix_parse_state.specs.Parts.{part_of};
ghost use Rattle.ix_parse_state.specs.Views.{stack_of, of_stmt, done_of, stmt_frame, body_frame, instr_of, always_of};
ghost use Rattle.ix_parse_state.specs.Moves.{Moves};

use ix_bits::{List, Memory, Name};
use ix_parse_expr::assign::begin_assign;
use ix_parse_expr::decl::after_name;
use ix_parse_section::section::begin_always;
use ix_parse_state::block::{block, empty};
use ix_parse_state::frame::{
    AssignFrame, BodyFrame, ClosingFrame, DeclFrame, Frame, OpenAlways, OpenInstr, OpenLoop,
    StmtFrame, TypeFrame,
};
use ix_parse_state::look::{copy, expect, is_symbol, is_word, level, nest};
use ix_parse_state::node::between;
use ix_parse_state::part::Part;
use ix_parse_state::reader::{in_expr, in_stmt, in_text};
use ix_parse_state::settle::settle_stmt;
use ix_parse_state::sign::{
    CLOSE_BRACE, ELSE, EQUALS, FOR, IF, OPEN_BRACE, OPEN_ROUND, SEMICOLON, SPAWN,
};
use ix_parse_state::stack::{pop, push};
use ix_parse_state::state::{ExprGoal, Reader, StmtGoal, TextGoal};
use ix_parse_state::stop::Stop;
use ix_parse_state::types::{begin_type, is_type_word};
use ix_tree::{BlockText, Decl, Instr, Span, Stmt, Token, TokenKind, TypeText};
use std::alloc::Global;

/// What the first token of a statement leads to.
#[tactic(auto, unfolding(ix_tree::specs::Machine::begin_stmt))]
fn begin_stmt(alloc: Global, depth: u32, stack: Vec<Frame>, token: &Token) -> Result<Reader, Stop>
    ensures { Moves result (begin_stmt depth (stack_of stack.items) token.now) }
{
    if is_symbol(token, OPEN_BRACE) {
        level(depth)?;
        let goal = StmtGoal::Item(depth, copy(alloc, token)?, List::new(alloc));
        return Ok(in_stmt(goal, stack));
    }
    if is_symbol(token, SEMICOLON) {
        level(depth)?;
        return Ok(in_stmt(StmtGoal::Done(empty(token)), stack));
    }
    if is_type_word(token) {
        let stack = push(stack, Frame::Type(TypeFrame::Locals(depth)))?;
        return begin_type(alloc, depth, stack, token);
    }
    if is_word(token, IF) {
        level(depth)?;
        return Ok(in_stmt(StmtGoal::IfRound(depth, copy(alloc, token)?), stack));
    }
    if is_word(token, FOR) {
        level(depth)?;
        return Ok(in_stmt(StmtGoal::ForRound(depth, copy(alloc, token)?), stack));
    }
    if is_word(token, SPAWN) {
        let nesting = level(depth)?;
        let first = copy(alloc, token)?;
        let stack = push(stack, Frame::Stmt(StmtFrame::Spawn(depth, first)))?;
        return Ok(in_stmt(StmtGoal::Stmt(nesting + 1), stack));
    }
    let stack = push(stack, Frame::Assign(AssignFrame::Single(depth)))?;
    begin_assign(alloc, depth, stack, token)
}

/// What the first token of a statement leads to that stands one deeper.
fn begin_inner(alloc: Global, depth: u32, stack: Vec<Frame>, token: &Token) -> Result<Reader, Stop>
    ensures { Moves result (begin_stmt (depth + 1) (stack_of stack.items) token.now) }
{
    begin_stmt(alloc, depth.saturating_add(1), stack, token)
}

/// What the first token of a type leads to that stands one deeper.
fn begin_inner_type(
    alloc: Global,
    depth: u32,
    stack: Vec<Frame>,
    token: &Token,
) -> Result<Reader, Stop>
    ensures { Moves result (begin_type (depth + 1) (stack_of stack.items) token.now) }
{
    begin_type(alloc, depth.saturating_add(1), stack, token)
}

/// What goes on in a block behind these statements.
fn in_block(
    alloc: Global,
    depth: u32,
    first: Token,
    all: List<Stmt>,
    stack: Vec<Frame>,
    token: &Token,
) -> Result<Reader, Stop>
    ensures { Moves result (in_block depth first (map view_whole all) (stack_of stack.items) token.now) }
{
    if is_symbol(token, CLOSE_BRACE) {
        if let Err(stop) = level(depth) {
            drop(first);
            return Err(stop);
        }
        let block = block(&first, all, token);
        drop(first);
        return Ok(in_stmt(StmtGoal::Done(block), stack));
    }
    let stack = push(stack, Frame::Body(BodyFrame::Block(depth, first, all)))?;
    begin_inner(alloc, depth, stack, token)
}

/// What goes on behind a statement, once what it ends has ended.
fn after_stmt(alloc: Global, stmt: Stmt, stack: Vec<Frame>, token: &Token) -> Result<Reader, Stop>
    ensures { Moves result (after_stmt (done_of stmt) (stack_of stack.items) token.now) }
{
    let (frame, stack) = match pop(stack) {
        None => {
            drop(stmt);
            return Err(Stop::Refused);
        }
        Some(top) => top,
    };
    match frame {
        Frame::Stmt(frame) => after_branch(stmt, frame, stack, token),
        Frame::Body(frame) => after_body(alloc, stmt, frame, stack, token),
        other => {
            drop(other);
            drop(stmt);
            Err(Stop::Refused)
        }
    }
}

/// What goes on behind a statement that ends another: only an `else` does.
fn after_branch(
    stmt: Stmt,
    frame: StmtFrame,
    stack: Vec<Frame>,
    token: &Token,
) -> Result<Reader, Stop>
    ensures { Moves result (after_stmt (done_of stmt) (stmt_frame frame ∷ stack_of stack.items) token.now) }
{
    match frame {
        StmtFrame::Branch(depth, first, condition) => {
            begin_other(depth, first, condition, stmt, stack, token)
        }
        other => {
            drop(other);
            drop(stmt);
            Err(Stop::Refused)
        }
    }
}

/// The statement behind an `else`.
fn begin_other(
    depth: u32,
    first: Token,
    condition: Part,
    branch: Stmt,
    stack: Vec<Frame>,
    token: &Token,
) -> Result<Reader, Stop>
    ensures { Moves result (after_stmt (done_of branch) (f_branch depth first (part_of condition) ∷ stack_of stack.items) token.now) }
{
    if !is_word(token, ELSE) {
        drop(first);
        drop(branch);
        return Err(Stop::Refused);
    }
    let nesting = match level(depth) {
        Ok(nesting) => nesting,
        Err(stop) => {
            drop(first);
            drop(branch);
            return Err(stop);
        }
    };
    let frame = StmtFrame::Other(depth, first, condition, branch);
    let stack = push(stack, Frame::Stmt(frame))?;
    Ok(in_stmt(StmtGoal::Stmt(nesting + 1), stack))
}

/// What goes on behind a statement of a block, or behind a whole body.
fn after_body(
    alloc: Global,
    stmt: Stmt,
    frame: BodyFrame,
    stack: Vec<Frame>,
    token: &Token,
) -> Result<Reader, Stop>
    ensures { Moves result (after_stmt (done_of stmt) (body_frame frame ∷ stack_of stack.items) token.now) }
{
    match frame {
        BodyFrame::Block(depth, first, all) => {
            if is_word(token, ELSE) {
                drop(first);
                drop(stmt);
                return Err(Stop::Refused);
            }
            let Ok(all) = with_stmt(all, stmt) else {
                drop(first);
                return Err(Stop::Memory);
            };
            in_block(alloc, depth, first, all, stack, token)
        }
        BodyFrame::Behavior(instr) => after_behavior(instr, stmt, token),
        BodyFrame::Always(always) => after_always(alloc, always, stmt, token),
    }
}

/// What goes on behind the behaviour of an instruction.
fn after_behavior(instr: OpenInstr, stmt: Stmt, token: &Token) -> Result<Reader, Stop>
    ensures { Moves result (after_stmt (done_of stmt) (f_behavior (instr_of instr) ∷ []) token.now) }
{
    if !is_symbol(token, CLOSE_BRACE) {
        drop(instr);
        drop(stmt);
        return Err(Stop::Refused);
    }
    let OpenInstr {
        within,
        before,
        first,
        name,
        pieces,
    } = instr;
    let span = between(&first, token);
    drop(first);
    let whole = Instr {
        span,
        name,
        pieces,
        body: stmt,
    };
    match with_instr(before, whole) {
        Ok(instrs) => Ok(in_text(TextGoal::Instructions(within, instrs))),
        Err(Memory) => {
            drop(within);
            Err(Stop::Memory)
        }
    }
}

/// What goes on behind the body of an always-block.
fn after_always(
    alloc: Global,
    always: OpenAlways,
    stmt: Stmt,
    token: &Token,
) -> Result<Reader, Stop>
    ensures { Moves result (after_stmt (done_of stmt) (f_always (always_of always) ∷ []) token.now) }
{
    let OpenAlways {
        within,
        before,
        first,
        name,
    } = always;
    let span = Span {
        from: first.span.from,
        to: stmt.span.to,
    };
    drop(first);
    let whole = BlockText {
        span,
        name,
        body: stmt,
    };
    match with_block(before, whole) {
        Ok(blocks) => begin_always(alloc, within, blocks, token),
        Err(Memory) => {
            drop(within);
            Err(Stop::Memory)
        }
    }
}

/// The statements and one more.
#[tactic(auto, using(ix_parse_state::proofs::Blocks::map_push))]
fn with_stmt(mut all: List<Stmt>, stmt: Stmt) -> Result<List<Stmt>, Memory>
    ensures { IfOk result (λ ss. map view_whole ss ≡ map view_whole all ++ view_whole stmt ∷ []) }
{
    all.push(stmt)?;
    Ok(all)
}

/// The instructions and one more.
#[tactic(auto, using(ix_parse_state::proofs::Blocks::map_push))]
fn with_instr(mut instrs: List<Instr>, instr: Instr) -> Result<List<Instr>, Memory>
    ensures { IfOk result (λ is. map view_instr is ≡ map view_instr instrs ++ view_instr instr ∷ []) }
{
    instrs.push(instr)?;
    Ok(instrs)
}

/// The always-blocks and one more.
#[tactic(auto, using(ix_parse_state::proofs::Blocks::map_push))]
fn with_block(mut blocks: List<BlockText>, block: BlockText) -> Result<List<BlockText>, Memory>
    ensures { IfOk result (λ bs. map view_block bs ≡ map view_block blocks ++ view_block block ∷ []) }
{
    blocks.push(block)?;
    Ok(blocks)
}

/// Which statements a token behind one ends: all but an `if` for `else`.
fn power_stmt(token: &Token) -> u8
    ensures { result ≡ power_stmt token.now.kind }
{
    if is_word(token, ELSE) { 2 } else { 1 }
}

/// What goes on behind a statement.
fn after_done(alloc: Global, stmt: Stmt, stack: Vec<Frame>, token: &Token) -> Result<Reader, Stop>
    ensures { Moves result (act token.now (settle_stmt (power_stmt token.now.kind) (done_of stmt) (stack_of stack.items))) }
{
    let had = settle_stmt(alloc, power_stmt(token), stmt, stack)?;
    after_stmt(alloc, had.stmt, had.stack, token)
}

/// What the token leads to inside of a statement.
#[tactic(auto, unfolding(ix_tree::specs::Machine::step))]
pub fn stmt_step(
    alloc: Global,
    goal: StmtGoal,
    stack: Vec<Frame>,
    token: &Token,
) -> Result<Reader, Stop>
    ensures { Moves result (step (of_stmt goal (stack_of stack.items)) token.now) }
{
    match goal {
        StmtGoal::Stmt(depth) => begin_stmt(alloc, depth, stack, token),
        StmtGoal::Item(depth, first, all) => in_block(alloc, depth, first, all, stack, token),
        StmtGoal::Done(stmt) => after_done(alloc, stmt, stack, token),
        StmtGoal::Naming(depth, ty, decls) => at_naming(alloc, depth, ty, decls, stack, token),
        StmtGoal::Named(depth, first, name) => at_named(depth, first, name, stack, token),
        StmtGoal::IfRound(depth, first) => at_if_round(depth, first, stack, token),
        StmtGoal::ForRound(depth, first) => at_for_round(depth, first, stack, token),
        StmtGoal::ForHead(depth, first) => at_for_head(alloc, depth, first, stack, token),
        StmtGoal::ForEquals(head) => at_for_equals(head, stack, token),
    }
}

/// What the token leads to behind `if`.
fn at_if_round(depth: u32, first: Token, stack: Vec<Frame>, token: &Token) -> Result<Reader, Stop>
    ensures { Moves result (act token.now (if_round depth first (stack_of stack.items))) }
{
    match expect(token, OPEN_ROUND, depth, 1) {
        Ok(inner) => {
            let stack = push(stack, Frame::Closing(ClosingFrame::If(depth, first)))?;
            Ok(in_expr(ExprGoal::Want(inner), stack))
        }
        Err(stop) => {
            drop(first);
            Err(stop)
        }
    }
}

/// What the token leads to behind `for`.
fn at_for_round(depth: u32, first: Token, stack: Vec<Frame>, token: &Token) -> Result<Reader, Stop>
    ensures { Moves result (act token.now (for_round depth first (stack_of stack.items))) }
{
    match expect(token, OPEN_ROUND, depth, 1) {
        Ok(_) => Ok(in_stmt(StmtGoal::ForHead(depth, first), stack)),
        Err(stop) => {
            drop(first);
            Err(stop)
        }
    }
}

/// What the token leads to where a local's name is wanted.
fn at_naming(
    alloc: Global,
    depth: u32,
    ty: TypeText,
    decls: List<Decl>,
    stack: Vec<Frame>,
    token: &Token,
) -> Result<Reader, Stop>
    ensures { Moves result (act token.now (naming depth ty (map view_decl decls) (stack_of stack.items))) }
{
    match &token.kind {
        TokenKind::Name(name) => {
            level(depth)?;
            let name = Name::from_text(alloc, name.as_str())?;
            let first = copy(alloc, token)?;
            let stack = push(stack, Frame::Decl(DeclFrame::Locals(depth, ty, decls)))?;
            Ok(in_stmt(StmtGoal::Named(depth, first, name), stack))
        }
        _ => Err(Stop::Refused),
    }
}

/// What the token leads to behind the name of a declaration.
fn at_named(
    depth: u32,
    first: Token,
    name: Name,
    stack: Vec<Frame>,
    token: &Token,
) -> Result<Reader, Stop>
    ensures { Moves result (act token.now (named depth first name (stack_of stack.items))) }
{
    if is_symbol(token, EQUALS) {
        level(depth)?;
        let stack = push(stack, Frame::Closing(ClosingFrame::Value(first, name)))?;
        return Ok(in_expr(ExprGoal::Want(depth), stack));
    }
    after_name(&first, name, stack, token)
}

/// What the token leads to behind the `(` of a `for`.
fn at_for_head(
    alloc: Global,
    depth: u32,
    first: Token,
    stack: Vec<Frame>,
    token: &Token,
) -> Result<Reader, Stop>
    ensures { Moves result (act token.now (for_head depth first (stack_of stack.items))) }
{
    if is_type_word(token) {
        let stack = push(stack, Frame::Type(TypeFrame::Loop(depth, first)))?;
        return begin_inner_type(alloc, depth, stack, token);
    }
    match &token.kind {
        TokenKind::Name(name) => {
            if let Err(stop) = nest(depth, 1) {
                drop(first);
                return Err(stop);
            }
            let Ok(name) = Name::from_text(alloc, name.as_str()) else {
                drop(first);
                return Err(Stop::Memory);
            };
            let head = OpenLoop {
                depth,
                first,
                ty: None,
                name,
            };
            Ok(in_stmt(StmtGoal::ForEquals(head), stack))
        }
        _ => {
            drop(first);
            Err(Stop::Refused)
        }
    }
}

/// What the token leads to behind the variable of a `for`.
fn at_for_equals(head: OpenLoop, stack: Vec<Frame>, token: &Token) -> Result<Reader, Stop>
    ensures { Moves result (act token.now (for_equals head.depth head.first head.ty head.name (stack_of stack.items))) }
{
    let inner = match expect(token, EQUALS, head.depth, 1) {
        Ok(inner) => inner,
        Err(stop) => {
            drop(head);
            return Err(stop);
        }
    };
    let stack = push(stack, Frame::Closing(ClosingFrame::Start(head)))?;
    Ok(in_expr(ExprGoal::Want(inner), stack))
}
