use ix_tree::{
    Assign, Decl, Expr, ExprKind, Loop, Lvalue, LvalueKind, Section, SectionKind, Span, Stmt,
    StmtKind, Tree,
};
use std::alloc::AllocError;

/// Puts ` FROM-TO` for each statement and each expression of the behaviours and always-blocks,
/// each before those in it, behind the text.
pub fn put_spans(out: &mut String, tree: &Tree) -> Result<(), AllocError> {
    for section in tree.sections.as_slice() {
        put_section(out, section)?;
    }
    Ok(())
}

fn put_section(out: &mut String, section: &Section) -> Result<(), AllocError> {
    match &section.kind {
        SectionKind::States(_) => {}
        SectionKind::Instructions(instrs) => {
            for instr in instrs.as_slice() {
                put_stmt(out, &instr.body)?;
            }
        }
        SectionKind::Always(blocks) => {
            for block in blocks.as_slice() {
                put_stmt(out, &block.body)?;
            }
        }
    }
    Ok(())
}

fn put_span(out: &mut String, span: Span) -> Result<(), AllocError> {
    write!(out, " {}-{}", span.from, span.to)
}

#[cycle(statements)]
fn put_stmt(out: &mut String, stmt: &Stmt) -> Result<(), AllocError> {
    put_span(out, stmt.span)?;
    match &stmt.kind {
        StmtKind::Block(all) => put_block(out, all.as_slice()),
        StmtKind::Empty => Ok(()),
        StmtKind::Locals(_, decls) => put_locals(out, decls.as_slice()),
        StmtKind::Assign(assign) => put_assign(out, assign),
        StmtKind::If(condition, x, None) => {
            put_expr(out, condition)?;
            put_stmt(out, x)
        }
        StmtKind::If(condition, x, Some(y)) => {
            put_expr(out, condition)?;
            put_stmt(out, x)?;
            put_stmt(out, y)
        }
        StmtKind::For(head) => put_loop(out, head),
        StmtKind::Spawn(x) => put_stmt(out, x),
    }
}

#[cycle(statements)]
fn put_block(out: &mut String, all: &[Stmt]) -> Result<(), AllocError> {
    for stmt in all {
        put_stmt(out, stmt)?;
    }
    Ok(())
}

#[cycle(statements)]
fn put_loop(out: &mut String, head: &Loop) -> Result<(), AllocError> {
    put_expr(out, &head.start)?;
    put_expr(out, &head.test)?;
    put_assign(out, &head.last)?;
    put_stmt(out, &head.body)
}

fn put_locals(out: &mut String, decls: &[Decl]) -> Result<(), AllocError> {
    for decl in decls {
        put_option(out, &decl.value)?;
    }
    Ok(())
}

fn put_option(out: &mut String, e: &Option<Expr>) -> Result<(), AllocError> {
    match e {
        None => Ok(()),
        Some(e) => put_expr(out, e),
    }
}

fn put_assign(out: &mut String, assign: &Assign) -> Result<(), AllocError> {
    put_place(out, &assign.target)?;
    put_expr(out, &assign.value)
}

fn put_place(out: &mut String, place: &Lvalue) -> Result<(), AllocError> {
    match &place.kind {
        LvalueKind::Name(_) | LvalueKind::Pc => Ok(()),
        LvalueKind::X(e) => put_expr(out, e),
        LvalueKind::Mem(high, low) => {
            put_expr(out, high)?;
            put_option(out, low)
        }
    }
}

#[cycle(expressions)]
fn put_expr(out: &mut String, e: &Expr) -> Result<(), AllocError> {
    put_span(out, e.span)?;
    match &e.kind {
        ExprKind::Literal(_, _) | ExprKind::Name(_) | ExprKind::Pc | ExprKind::X | ExprKind::Mem =>
            Ok(()),
        ExprKind::Index(x, y) | ExprKind::Binary(_, x, y) => {
            put_expr(out, x)?;
            put_expr(out, y)
        }
        ExprKind::Range(x, y, z) | ExprKind::Choose(x, y, z) => {
            put_expr(out, x)?;
            put_expr(out, y)?;
            put_expr(out, z)
        }
        ExprKind::Unary(_, x) => put_expr(out, x),
        ExprKind::Cast(_, x) => put_expr(out, x),
    }
}
