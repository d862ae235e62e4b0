ghost use Rattle.std.specs.Prelude.{◌≡◌, List, ◌∷◌, [], map, IfOk, OnOk, IfErr};
ghost use Rattle.ix_tree.specs.Trees.{s_block, s_empty, s_locals, s_assign, s_spawn};
ghost use Rattle.ix_tree.specs.View.{view_decl, view_assign};
ghost use Rattle.ix_tree.specs.Rows.{view_whole, view_items};
ghost use Rattle.ix_tree.specs.Unrolling.{Mark, statement, alone, inside, copies, row_join, met, met_row, copy_marks};
ghost use Rattle.ix_unroll.specs.Scopes.{bindings};
ghost use Rattle.ix_unroll.specs.Telling.{Passes, Refuses};
ghost use Rattle.ix_unroll.specs.Turning.{loop_tree, opened_row, row_marks, body_row, body_marks};

use crate::UnrollErr;
use crate::parts::{assignment, block, choice, choice_else, empty, locals, spawned};
use crate::room::{Room, taken};
use crate::scope::Scope;
use crate::size::{size_of, size_of_assign, size_of_decls};
use crate::turns::judged;
use ix_bits::put;
use ix_tree::{Assign, Decl, Loop, Span, Stmt, StmtKind, TypeText};
use std::alloc::Global;

/// The greatest count of statements in the result.
const MOST_STATEMENTS: u32 = 16384;

// Counts one more statement of the result, which comes from the statement at the span and has this many nodes beside the
// statements in it.
fn counted(room: &mut Room, size: usize, span: Span) -> Result<(), UnrollErr>
    ensures passed { OnOk result (Passes room.old.statements (statement span ∷ []) room.new.statements) }
    ensures refused { (rest : List Mark) → IfErr result (λ e. Refuses e room.old.statements (statement span ∷ rest)) }
{
    if room.statements < MOST_STATEMENTS {
        taken(&mut room.nodes, size)?;
        room.statements += 1;
        Ok(())
    } else {
        Err(UnrollErr::Size { span })
    }
}

/// The statement without loops, where it does not stand in a block: a loop becomes one block of its copies.
/// `room` has the count of the result's statements so far.
#[cycle(statements)]
pub fn alone<'x>(
    alloc: Global,
    scope: &'x Scope<'x>,
    room: &mut Room,
    stmt: &'x Stmt,
) -> Result<Stmt, UnrollErr>
    ensures tree { IfOk result (λ x. view_whole x ≡ alone (view_whole stmt.now) (bindings scope.now)) }
    ensures passed { OnOk result (Passes room.old.statements (met (view_whole stmt.now) (bindings scope.now)) room.new.statements) }
    ensures refused { IfErr result (λ e. Refuses e room.old.statements (met (view_whole stmt.now) (bindings scope.now))) }
{
    let span = stmt.span;
    match &stmt.kind {
        StmtKind::Block(all) => blocked(alloc, scope, room, span, all.as_slice()),
        StmtKind::Empty => counted_empty(room, span),
        StmtKind::Locals(ty, decls) => {
            counted_locals(alloc, scope, room, span, *ty, decls.as_slice())
        }
        StmtKind::Assign(assign) => counted_assignment(alloc, scope, room, span, assign),
        StmtKind::If(condition, x, None) => {
            counted(room, size_of(condition), span)?;
            let x = alone(alloc, scope, room, x)?;
            Ok(choice(alloc, scope, span, condition, x)?)
        }
        StmtKind::If(condition, x, Some(y)) => {
            counted(room, size_of(condition), span)?;
            match alone(alloc, scope, room, x) {
                Err(error) => Err(error),
                Ok(x) => {
                    let y = alone(alloc, scope, room, y);
                    choice_else(alloc, scope, span, condition, x, y)
                }
            }
        }
        StmtKind::For(head) => looped(alloc, scope, room, span, head),
        StmtKind::Spawn(x) => spawning(alloc, scope, room, span, x),
    }
}

// The empty statement.
fn counted_empty(room: &mut Room, span: Span) -> Result<Stmt, UnrollErr>
    ensures tree { IfOk result (λ x. view_whole x ≡ s_empty span) }
    ensures passed { OnOk result (Passes room.old.statements (statement span ∷ []) room.new.statements) }
    ensures refused { IfErr result (λ e. Refuses e room.old.statements (statement span ∷ [])) }
{
    match counted(room, 0, span) {
        Ok(()) => Ok(empty(span)),
        Err(error) => Err(error),
    }
}

// Declarations.
fn counted_locals(
    alloc: Global,
    scope: &Scope,
    room: &mut Room,
    span: Span,
    ty: TypeText,
    decls: &[Decl],
) -> Result<Stmt, UnrollErr>
    ensures tree { IfOk result (λ x. view_whole x ≡ alone (s_locals span ty (map view_decl decls.now)) (bindings scope.now)) }
    ensures passed { OnOk result (Passes room.old.statements (statement span ∷ []) room.new.statements) }
    ensures refused { IfErr result (λ e. Refuses e room.old.statements (statement span ∷ [])) }
{
    match counted(room, size_of_decls(decls), span) {
        Ok(()) => Ok(locals(alloc, scope, span, ty, decls)?),
        Err(error) => Err(error),
    }
}

// An assignment.
fn counted_assignment(
    alloc: Global,
    scope: &Scope,
    room: &mut Room,
    span: Span,
    assign: &Assign,
) -> Result<Stmt, UnrollErr>
    ensures tree { IfOk result (λ x. view_whole x ≡ alone (s_assign span (view_assign assign.now)) (bindings scope.now)) }
    ensures passed { OnOk result (Passes room.old.statements (statement span ∷ []) room.new.statements) }
    ensures refused { IfErr result (λ e. Refuses e room.old.statements (statement span ∷ [])) }
{
    match counted(room, size_of_assign(assign), span) {
        Ok(()) => Ok(assignment(alloc, scope, span, assign)?),
        Err(error) => Err(error),
    }
}

// A block.
#[cycle(statements)]
fn blocked<'x>(
    alloc: Global,
    scope: &'x Scope<'x>,
    room: &mut Room,
    span: Span,
    all: &'x [Stmt],
) -> Result<Stmt, UnrollErr>
    ensures tree { IfOk result (λ x. view_whole x ≡ alone (s_block span (view_items all.now)) (bindings scope.now)) }
    ensures passed { OnOk result (Passes room.old.statements (met (s_block span (view_items all.now)) (bindings scope.now)) room.new.statements) }
    ensures refused { IfErr result (λ e. Refuses e room.old.statements (met (s_block span (view_items all.now)) (bindings scope.now))) }
{
    match counted(room, 0, span) {
        Ok(()) => match inside(alloc, scope, room, all) {
            Ok(all) => Ok(block(span, all)),
            Err(error) => Err(error),
        },
        Err(error) => Err(error),
    }
}

// A `spawn`.
#[cycle(statements)]
fn spawning<'x>(
    alloc: Global,
    scope: &'x Scope<'x>,
    room: &mut Room,
    span: Span,
    x: &'x Stmt,
) -> Result<Stmt, UnrollErr>
    ensures tree { IfOk result (λ r. view_whole r ≡ alone (s_spawn span (view_whole x.now)) (bindings scope.now)) }
    ensures passed { OnOk result (Passes room.old.statements (met (s_spawn span (view_whole x.now)) (bindings scope.now)) room.new.statements) }
    ensures refused { IfErr result (λ e. Refuses e room.old.statements (met (s_spawn span (view_whole x.now)) (bindings scope.now))) }
{
    match counted(room, 0, span) {
        Ok(()) => match alone(alloc, scope, room, x) {
            Ok(x) => Ok(spawned(alloc, span, x)?),
            Err(error) => Err(error),
        },
        Err(error) => Err(error),
    }
}

// The block of a loop's copies.
#[cycle(statements)]
fn looped<'x>(
    alloc: Global,
    scope: &'x Scope<'x>,
    room: &mut Room,
    span: Span,
    head: &'x Loop,
) -> Result<Stmt, UnrollErr>
    ensures tree { IfOk result (λ x. view_whole x ≡ alone (loop_tree span head.now) (bindings scope.now)) }
    ensures passed { OnOk result (Passes room.old.statements (met (loop_tree span head.now) (bindings scope.now)) room.new.statements) }
    ensures refused { IfErr result (λ e. Refuses e room.old.statements (met (loop_tree span head.now) (bindings scope.now))) }
{
    let values = judged(alloc, scope, &mut room.steps, span, head)?;
    counted(room, 0, span)?;
    let mut all = Vec::new(alloc);
    copies(alloc, scope, room, span, head, values.as_slice(), &mut all)?;
    Ok(block(span, all))
}

// The statements of a block without loops.
#[cycle(statements)]
fn inside<'x>(
    alloc: Global,
    scope: &'x Scope<'x>,
    room: &mut Room,
    all: &'x [Stmt],
) -> Result<Vec<Stmt>, UnrollErr>
    ensures tree { IfOk result (λ xs. view_items xs.items ≡ inside (view_items all.now) (bindings scope.now)) }
    ensures passed { OnOk result (Passes room.old.statements (met_row (view_items all.now) (bindings scope.now)) room.new.statements) }
    ensures refused { IfErr result (λ e. Refuses e room.old.statements (met_row (view_items all.now) (bindings scope.now))) }
{
    let mut out = Vec::new(alloc);
    for stmt in all {
        opened(alloc, scope, room, stmt, &mut out)?;
    }
    Ok(out)
}

// Puts what stands in a block for the statement behind `out`: of a loop its copies.
#[cycle(statements)]
fn opened<'x>(
    alloc: Global,
    scope: &'x Scope<'x>,
    room: &mut Room,
    stmt: &'x Stmt,
    out: &mut Vec<Stmt>,
) -> Result<(), UnrollErr>
    ensures tree { OnOk result (view_items out.new.items ≡ row_join (view_items out.old.items) (opened_row (view_whole stmt.now) (bindings scope.now))) }
    ensures passed { OnOk result (Passes room.old.statements (row_marks (view_whole stmt.now) (bindings scope.now)) room.new.statements) }
    ensures refused { IfErr result (λ e. Refuses e room.old.statements (row_marks (view_whole stmt.now) (bindings scope.now))) }
{
    match &stmt.kind {
        StmtKind::For(head) => {
            let values = judged(alloc, scope, &mut room.steps, stmt.span, head)?;
            copies(alloc, scope, room, stmt.span, head, values.as_slice(), out)
        }
        _ => {
            let stmt = alone(alloc, scope, room, stmt)?;
            put(out, stmt)?;
            Ok(())
        }
    }
}

// Puts a copy of the loop's body for each value behind `out`.
#[cycle(statements)]
fn copies<'x>(
    alloc: Global,
    scope: &'x Scope<'x>,
    room: &mut Room,
    span: Span,
    head: &'x Loop,
    values: &[i32],
    out: &mut Vec<Stmt>,
) -> Result<(), UnrollErr>
    ensures tree { OnOk result (view_items out.new.items ≡ row_join (view_items out.old.items) (copies span (body_row (view_whole head.now.body) head.now.name (bindings scope.now)) values.now)) }
    ensures passed { OnOk result (Passes room.old.statements (copy_marks span (body_marks (view_whole head.now.body) head.now.name (bindings scope.now)) values.now) room.new.statements) }
    ensures refused { IfErr result (λ e. Refuses e room.old.statements (copy_marks span (body_marks (view_whole head.now.body) head.now.name (bindings scope.now)) values.now)) }
{
    for value in values {
        counted(room, 0, span)?;
        let turn = Scope::Inside(head.name.as_str(), *value, scope);
        let mut body = Vec::new(alloc);
        opened(alloc, &turn, room, &head.body, &mut body)?;
        put(out, block(span, body))?;
    }
    Ok(())
}
