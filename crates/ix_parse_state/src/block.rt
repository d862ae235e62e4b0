ghost use Rattle.std.specs.Prelude.{◌≡◌, map, IfOk};
ghost use Rattle.ix_tree.specs.Productions.{d_block, d_empty, d_locals, d_assign, d_if, d_if_else, d_for, d_spawn};
ghost use Rattle.ix_tree.specs.View.{view_assign, view_decl};
ghost use Rattle.ix_tree.specs.Rows.{view_whole};
ghost use Rattle.ix_parse_state.specs.Parts.{part_of};
ghost use Rattle.ix_parse_state.specs.Views.{done_of};

use crate::frame::OpenLoop;
use crate::part::Part;
use ix_bits::{List, Memory, boxed, boxed_pair};
use ix_tree::{Assign, Decl, Loop, Span, Stmt, StmtKind, Token, TypeText};
use std::alloc::Global;

/// An `if` without `else`.
pub fn choice(alloc: Global, first: &Token, condition: Part, branch: Stmt) -> Result<Stmt, Memory>
    ensures { IfOk result (λ s. done_of s ≡ d_if first.now (part_of condition) (done_of branch)) }
{
    let span = Span {
        from: first.span.from,
        to: branch.span.to,
    };
    let Ok(branch) = boxed(alloc, branch) else {
        drop(condition);
        return Err(Memory);
    };
    Ok(Stmt {
        span,
        kind: StmtKind::If(condition.tree, branch, None),
    })
}

/// An `if` with an `else`.
pub fn choice_else(
    alloc: Global,
    first: &Token,
    condition: Part,
    branch: Stmt,
    other: Stmt,
) -> Result<Stmt, Memory>
    ensures { IfOk result (λ s. done_of s ≡ d_if_else first.now (part_of condition) (done_of branch) (done_of other)) }
{
    let span = Span {
        from: first.span.from,
        to: other.span.to,
    };
    let Ok((branch, other)) = boxed_pair(alloc, branch, other) else {
        drop(condition);
        return Err(Memory);
    };
    Ok(Stmt {
        span,
        kind: StmtKind::If(condition.tree, branch, Some(other)),
    })
}

/// A `for` loop.
pub fn looped(
    alloc: Global,
    head: OpenLoop,
    start: Part,
    test: Part,
    last: Assign,
    body: Stmt,
) -> Result<Stmt, Memory>
    ensures { IfOk result (λ s. done_of s ≡ d_for head.first head.ty head.name (part_of start) (part_of test) (view_assign last) (done_of body)) }
{
    let OpenLoop {
        first,
        ty,
        name,
        ..
    } = head;
    let span = Span {
        from: first.span.from,
        to: body.span.to,
    };
    drop(first);
    let whole = Loop {
        ty,
        name,
        start: start.tree,
        test: test.tree,
        last,
        body,
    };
    Ok(Stmt {
        span,
        kind: StmtKind::For(boxed(alloc, whole)?),
    })
}

/// A `spawn`.
pub fn spawned(alloc: Global, first: &Token, body: Stmt) -> Result<Stmt, Memory>
    ensures { IfOk result (λ s. done_of s ≡ d_spawn first.now (done_of body)) }
{
    let span = Span {
        from: first.span.from,
        to: body.span.to,
    };
    let body = boxed(alloc, body)?;
    Ok(Stmt {
        span,
        kind: StmtKind::Spawn(body),
    })
}

/// A block of these statements, from `{` to `}`.
pub fn block(first: &Token, all: List<Stmt>, last: &Token) -> Stmt
    ensures { done_of result ≡ d_block first.now (map view_whole all) last.now }
{
    Stmt {
        span: Span {
            from: first.span.from,
            to: last.span.to,
        },
        kind: StmtKind::Block(all),
    }
}

/// The empty statement.
pub fn empty(token: &Token) -> Stmt
    ensures { done_of result ≡ d_empty token.now }
{
    Stmt {
        span: token.span,
        kind: StmtKind::Empty,
    }
}

/// An assignment as a statement, with its `;`.
pub fn assignment(assign: Assign, last: &Token) -> Stmt
    ensures { done_of result ≡ d_assign (view_assign assign) last.now }
{
    Stmt {
        span: Span {
            from: assign.span.from,
            to: last.span.to,
        },
        kind: StmtKind::Assign(assign),
    }
}

/// Declarations of one type, with their `;`.
pub fn locals(ty: TypeText, decls: List<Decl>, last: &Token) -> Stmt
    ensures { done_of result ≡ d_locals ty (map view_decl decls) last.now }
{
    Stmt {
        span: Span {
            from: ty.span.from,
            to: last.span.to,
        },
        kind: StmtKind::Locals(ty, decls),
    }
}
