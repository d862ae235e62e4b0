use ix_tree::{Assign, Decl, Expr, ExprKind, Loop, Lvalue, LvalueKind, Stmt, StmtKind};

// The size of what has parts of these sizes.
fn joined(x: usize, y: usize) -> usize {
    x.saturating_add(y).saturating_add(1)
}

/// How many nodes the expression has.
pub fn size_of(e: &Expr) -> usize {
    match &e.kind {
        ExprKind::Literal(_, _) | ExprKind::Name(_) | ExprKind::Pc | ExprKind::X | ExprKind::Mem =>
            1,
        ExprKind::Index(x, l) => joined(size_of(x), size_of(l)),
        ExprKind::Range(x, h, l) => joined(joined(size_of(x), size_of(h)), size_of(l)),
        ExprKind::Unary(_, x) => joined(size_of(x), 0),
        ExprKind::Cast(_, x) => joined(size_of(x), 0),
        ExprKind::Binary(_, x, y) => joined(size_of(x), size_of(y)),
        ExprKind::Choose(c, x, y) => joined(joined(size_of(c), size_of(x)), size_of(y)),
    }
}

// How many nodes the expression has, if there is one.
fn size_of_option(e: &Option<Expr>) -> usize {
    match e {
        None => 0,
        Some(e) => size_of(e),
    }
}

// How many nodes the place has, with itself.
fn size_of_place(place: &Lvalue) -> usize {
    match &place.kind {
        LvalueKind::Name(_) | LvalueKind::Pc => 1,
        LvalueKind::X(e) => joined(size_of(e), 0),
        LvalueKind::Mem(e, f) => joined(size_of(e), size_of_option(f)),
    }
}

/// How many nodes the assignment has, with the place that it writes.
pub fn size_of_assign(assign: &Assign) -> usize {
    size_of_place(&assign.target).saturating_add(size_of(&assign.value))
}

/// How many nodes the declarations have, with themselves.
pub fn size_of_decls(decls: &[Decl]) -> usize {
    let mut size = decls.len();
    for decl in decls {
        size = size.saturating_add(size_of_option(&decl.value));
    }
    size
}

/// How many nodes of the loop's head are looked at in a turn.
pub fn size_of_turn(head: &Loop) -> usize {
    joined(size_of(&head.test), size_of(&head.last.value))
}

/// How many nodes of the loop are looked at once: of its head, and the statements and declarations of its body.
pub fn size_of_judging(head: &Loop) -> usize {
    joined(
        joined(size_of(&head.start), size_of_turn(head)),
        extent(&head.body),
    )
}

// How many statements and declarations the statement has, with itself.
#[cycle(extents)]
fn extent(stmt: &Stmt) -> usize {
    match &stmt.kind {
        StmtKind::Block(all) => joined(extent_of_row(all.as_slice()), 0),
        StmtKind::Empty => 1,
        StmtKind::Locals(_, decls) => joined(decls.as_slice().len(), 0),
        StmtKind::Assign(_) => 1,
        StmtKind::If(_, x, None) => joined(extent(x), 0),
        StmtKind::If(_, x, Some(y)) => joined(extent(x), extent(y)),
        StmtKind::For(inner) => joined(extent(&inner.body), 0),
        StmtKind::Spawn(x) => joined(extent(x), 0),
    }
}

// How many statements and declarations the statements have.
#[cycle(extents)]
fn extent_of_row(all: &[Stmt]) -> usize {
    let mut count = 0;
    for stmt in all {
        count = extent(stmt).saturating_add(count);
    }
    count
}
