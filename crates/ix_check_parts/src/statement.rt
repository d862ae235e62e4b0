ghost use Rattle.std.specs.Prelude.{◌≡◌};
ghost use Rattle.ix_tree.specs.View.{view_lvalue};
ghost use Rattle.ix_tree.specs.Rows.{view_whole, view_items};
ghost use Rattle.ix_typing.specs.Statements.{judged_stmt, judged_row, in_scope, block, may_spawn, writes_target, row_writes, is_target, is_register};
ghost use Rattle.ix_check_parts.specs.Telling.{TellsStmt, TellsRow, other_branch};

use crate::CheckErr;
use crate::assign::assignment;
use crate::parts::{
    assign_of, below_if, below_spawn, choice, choice_else, condition, joined, locals, spawned,
    with_branch,
};
use crate::words::is_instruction;
use ix_bits::{List, put};
use ix_tree::{LvalueKind, Span, Stmt, StmtKind, TypedStmt, TypedStmtKind};
use ix_typing::{Names, Role, Setting, State};
use std::alloc::Global;

/// The statement with its types, or the first rule that it breaks. The names that it declares are visible behind it.
#[cycle(statements)]
pub fn statement(
    alloc: Global,
    setting: Setting,
    state: &mut State,
    stmt: &Stmt,
) -> Result<TypedStmt, CheckErr>
    ensures { TellsStmt result state.new (judged_stmt (view_whole stmt.now) setting state.old) }
{
    let span = stmt.span;
    match &stmt.kind {
        StmtKind::Block(all) => block(alloc, setting, state, span, all.as_slice()),
        StmtKind::Empty => Ok(TypedStmt {
            span,
            kind: TypedStmtKind::Empty,
        }),
        StmtKind::Locals(text, decls) => locals(
            alloc,
            setting,
            state,
            span,
            *text,
            decls.as_slice(),
        ),
        StmtKind::Assign(assign) => {
            let assign = assignment(alloc, setting, state, assign);
            assign_of(span, assign)
        }
        StmtKind::If(c, x, None) => match condition(alloc, setting, state, c) {
            Err(error) => Err(error),
            Ok(c) => {
                let x = scoped(alloc, below_if(setting), state, x);
                choice(alloc, span, c, x)
            }
        },
        StmtKind::If(c, x, Some(y)) => match condition(alloc, setting, state, c) {
            Err(error) => Err(error),
            Ok(c) => {
                let before = state.written.len();
                let x = scoped(alloc, below_if(setting), state, x);
                match with_branch(c, x) {
                    Err(error) => Err(error),
                    Ok(branch) => {
                        let y = otherwise(alloc, below_if(setting), state, before, y);
                        choice_else(alloc, span, branch, y)
                    }
                }
            }
        },
        StmtKind::For(_) => Err(CheckErr::Unknown { span }),
        StmtKind::Spawn(x) => {
            if may_spawn(setting, state, x) {
                state.spawned = true;
                let x = scoped(alloc, below_spawn(setting), state, x);
                spawned(alloc, span, x)
            } else {
                Err(CheckErr::InSpawn { span })
            }
        }
    }
}

// The statement in a scope of its own: what it declares is visible no more behind it.
#[cycle(statements)]
fn scoped(
    alloc: Global,
    setting: Setting,
    state: &mut State,
    stmt: &Stmt,
) -> Result<TypedStmt, CheckErr>
    ensures { TellsStmt result state.new (in_scope state.old (judged_stmt (view_whole stmt.now) setting state.old)) }
{
    let before = state.names.len();
    let stmt = statement(alloc, setting, state, stmt);
    state.names.keep(before);
    stmt
}

// The second branch of an `if`, where what was written behind the first `before` targets is on the other path.
#[cycle(statements)]
fn otherwise(
    alloc: Global,
    setting: Setting,
    state: &mut State,
    before: usize,
    stmt: &Stmt,
) -> Result<TypedStmt, CheckErr>
    ensures { TellsStmt result state.new (other_branch before state.old (view_whole stmt.now) setting) }
{
    match state.written.split(alloc, before) {
        Err(_) => Err(CheckErr::Memory),
        Ok(first) => {
            let stmt = scoped(alloc, setting, state, stmt);
            joined(state, first.as_slice(), stmt)
        }
    }
}

// A block.
#[cycle(statements)]
fn block(
    alloc: Global,
    setting: Setting,
    state: &mut State,
    span: Span,
    all: &[Stmt],
) -> Result<TypedStmt, CheckErr>
    ensures { TellsStmt result state.new (block span state.old (judged_row (view_items all.now) setting state.old)) }
{
    let before = state.names.len();
    match inside(alloc, setting, state, all) {
        Err(error) => Err(error),
        Ok(all) => {
            state.names.keep(before);
            Ok(TypedStmt {
                span,
                kind: TypedStmtKind::Block(List::from_vec(all)),
            })
        }
    }
}

// The statements of a block.
#[cycle(statements)]
fn inside(
    alloc: Global,
    setting: Setting,
    state: &mut State,
    all: &[Stmt],
) -> Result<Vec<TypedStmt>, CheckErr>
    ensures { TellsRow result state.new (judged_row (view_items all.now) setting state.old) }
{
    let mut out = Vec::new(alloc);
    for stmt in all {
        match statement(alloc, setting, state, stmt) {
            Err(error) => return Err(error),
            Ok(stmt) => match put(&mut out, stmt) {
                Err(_) => return Err(CheckErr::Memory),
                Ok(()) => {}
            },
        }
    }
    Ok(out)
}

// Whether a `spawn` over this body may stand there.
fn may_spawn(setting: Setting, state: &State, body: &Stmt) -> bool
    ensures { result ≡ may_spawn setting state.now (view_whole body.now) }
{
    is_instruction(setting.body)
        && !setting.in_spawn
        && !setting.below_if
        && !state.spawned
        && writes_target(&state.names, body)
}

// Whether a target is assigned in the statement.
#[cycle(writes)]
fn writes_target(names: &Names, stmt: &Stmt) -> bool
    ensures { result ≡ writes_target names.now (view_whole stmt.now) }
{
    match &stmt.kind {
        StmtKind::Block(all) => any_writes(names, all.as_slice()),
        StmtKind::Empty => false,
        StmtKind::Locals(_, _) => false,
        StmtKind::Assign(assign) => is_target(names, &assign.target.kind),
        StmtKind::If(_, x, None) => writes_target(names, x),
        StmtKind::If(_, x, Some(y)) => writes_target(names, x) || writes_target(names, y),
        StmtKind::For(_) => false,
        StmtKind::Spawn(x) => writes_target(names, x),
    }
}

#[cycle(writes)]
fn any_writes(names: &Names, all: &[Stmt]) -> bool
    ensures { result ≡ row_writes names.now (view_items all.now) }
{
    for stmt in all {
        if writes_target(names, stmt) {
            return true;
        }
    }
    false
}

fn is_target(names: &Names, target: &LvalueKind) -> bool
    ensures { result ≡ is_target names.now (view_lvalue target.now) }
{
    match target {
        LvalueKind::Name(name) => is_register(names.find(name.as_str())),
        LvalueKind::Pc => true,
        LvalueKind::X(_) => true,
        LvalueKind::Mem(_, _) => true,
    }
}

fn is_register(role: Option<Role>) -> bool
    ensures { result ≡ is_register role }
{
    match role {
        None => false,
        Some(Role::Table { .. }) => false,
        Some(Role::Field(_)) => false,
        Some(Role::Local { .. }) => false,
        Some(Role::Register { .. }) => true,
    }
}
