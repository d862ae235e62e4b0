ghost use Rattle.std.specs.Prelude.{◌≡◌, map, IfOk, OnOk, IfErr, IsOk};
ghost use Rattle.ix_tree.specs.Trees.{s_block, s_empty, s_locals, s_assign, s_if, s_if_else, s_spawn};
ghost use Rattle.ix_tree.specs.View.{view, view_decl, view_assign};
ghost use Rattle.ix_tree.specs.Rows.{view_whole, view_items};
ghost use Rattle.ix_tree.specs.Unrolling.{alone, put};
ghost use Rattle.ix_unroll.specs.Scopes.{bindings};
ghost use Rattle.ix_unroll.specs.Telling.{KeepsErr};

use crate::UnrollErr;
use crate::put::{put, put_assign, put_decls};
use crate::scope::Scope;
use ix_bits::{List, Memory, boxed};
use ix_tree::{Assign, Decl, Expr, Span, Stmt, StmtKind, TypeText};
use std::alloc::Global;

/// A block of these statements.
pub fn block(span: Span, all: Vec<Stmt>) -> Stmt
    ensures { view_whole result ≡ s_block span (view_items all.items) }
{
    Stmt {
        span,
        kind: StmtKind::Block(List::from_vec(all)),
    }
}

/// Declarations with the values of the loop variables in their places.
pub fn locals(
    alloc: Global,
    scope: &Scope,
    span: Span,
    ty: TypeText,
    decls: &[Decl],
) -> Result<Stmt, Memory>
    ensures { IfOk result (λ x. view_whole x ≡ alone (s_locals span ty (map view_decl decls.now)) (bindings scope.now)) }
{
    Ok(Stmt {
        span,
        kind: StmtKind::Locals(ty, put_decls(alloc, scope, decls)?),
    })
}

/// An assignment with the values of the loop variables in their places.
pub fn assignment(alloc: Global, scope: &Scope, span: Span, assign: &Assign) -> Result<Stmt, Memory>
    ensures { IfOk result (λ x. view_whole x ≡ alone (s_assign span (view_assign assign.now)) (bindings scope.now)) }
{
    Ok(Stmt {
        span,
        kind: StmtKind::Assign(put_assign(alloc, scope, assign)?),
    })
}

/// The empty statement.
pub fn empty(span: Span) -> Stmt
    ensures { view_whole result ≡ s_empty span }
{
    Stmt {
        span,
        kind: StmtKind::Empty,
    }
}

/// An `if` without `else`, over a branch that is without loops.
pub fn choice(
    alloc: Global,
    scope: &Scope,
    span: Span,
    condition: &Expr,
    x: Stmt,
) -> Result<Stmt, Memory>
    ensures { IfOk result (λ r. view_whole r ≡ s_if span (put (bindings scope.now) (view condition.now)) (view_whole x)) }
{
    let x = boxed(alloc, x)?;
    let Ok(condition) = put(alloc, scope, condition) else {
        drop(x);
        return Err(Memory);
    };
    Ok(Stmt {
        span,
        kind: StmtKind::If(condition, x, None),
    })
}

/// An `if` with both its branches, which are without loops, where the second has come about.
pub fn choice_else(
    alloc: Global,
    scope: &Scope,
    span: Span,
    condition: &Expr,
    x: Stmt,
    y: Result<Stmt, UnrollErr>,
) -> Result<Stmt, UnrollErr>
    ensures tree { IfOk y (λ v. IfOk result (λ r. view_whole r ≡ s_if_else span (put (bindings scope.now) (view condition.now)) (view_whole x) (view_whole v))) }
    ensures ok { OnOk result (IsOk y) }
    ensures err { IfErr result (λ e. KeepsErr y e) }
{
    match y {
        Ok(y) => Ok(both(alloc, scope, span, condition, x, y)?),
        Err(error) => {
            drop(x);
            Err(error)
        }
    }
}

// An `if` with both its branches.
fn both(
    alloc: Global,
    scope: &Scope,
    span: Span,
    condition: &Expr,
    x: Stmt,
    y: Stmt,
) -> Result<Stmt, Memory>
    ensures { IfOk result (λ r. view_whole r ≡ s_if_else span (put (bindings scope.now) (view condition.now)) (view_whole x) (view_whole y)) }
{
    let Ok(y) = boxed(alloc, y) else {
        drop(x);
        return Err(Memory);
    };
    let Ok(x) = boxed(alloc, x) else {
        drop(y);
        return Err(Memory);
    };
    let Ok(condition) = put(alloc, scope, condition) else {
        drop(x);
        drop(y);
        return Err(Memory);
    };
    Ok(Stmt {
        span,
        kind: StmtKind::If(condition, x, Some(y)),
    })
}

/// A `spawn` over a body that is without loops.
pub fn spawned(alloc: Global, span: Span, x: Stmt) -> Result<Stmt, Memory>
    ensures { IfOk result (λ r. view_whole r ≡ s_spawn span (view_whole x)) }
{
    let x = boxed(alloc, x)?;
    Ok(Stmt {
        span,
        kind: StmtKind::Spawn(x),
    })
}
