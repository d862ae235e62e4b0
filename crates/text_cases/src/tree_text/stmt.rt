use crate::tree_text::expr::{binary_text, put_behind, put_expr, put_option, put_type};
use ix_tree::{Assign, Decl, Expr, Loop, Lvalue, LvalueKind, Stmt, StmtKind, TypeText};
use std::alloc::AllocError;

/// Puts the statement behind the text.
#[cycle(statements)]
pub fn put_stmt(out: &mut String, stmt: &Stmt) -> Result<(), AllocError> {
    match &stmt.kind {
        StmtKind::Block(all) => put_block(out, all.as_slice()),
        StmtKind::Empty => out.push_str(";"),
        StmtKind::Locals(ty, decls) => put_locals(out, *ty, decls.as_slice()),
        StmtKind::Assign(assign) => put_assign(out, assign),
        StmtKind::If(condition, x, None) => {
            put_if(out, condition)?;
            put_last(out, x)
        }
        StmtKind::If(condition, x, Some(y)) => {
            put_if(out, condition)?;
            put_stmt(out, x)?;
            out.push_str(" ")?;
            put_last(out, y)
        }
        StmtKind::For(head) => put_loop(out, head),
        StmtKind::Spawn(x) => {
            out.push_str("(spawn ")?;
            put_last(out, x)
        }
    }
}

/// Puts a statement and the bracket that ends what it stands in.
#[cycle(statements)]
fn put_last(out: &mut String, stmt: &Stmt) -> Result<(), AllocError> {
    put_stmt(out, stmt)?;
    out.push_str(")")
}

/// Puts a block of these statements.
#[cycle(statements)]
fn put_block(out: &mut String, all: &[Stmt]) -> Result<(), AllocError> {
    out.push_str("(block")?;
    for stmt in all {
        out.push_str(" ")?;
        put_stmt(out, stmt)?;
    }
    out.push_str(")")
}

/// Puts a loop.
#[cycle(statements)]
fn put_loop(out: &mut String, head: &Loop) -> Result<(), AllocError> {
    out.push_str("(for ")?;
    put_loop_type(out, head.ty)?;
    out.push_str(" ")?;
    out.push_str(head.name.as_str())?;
    put_behind(out, &head.start)?;
    put_behind(out, &head.test)?;
    out.push_str(" ")?;
    put_assign(out, &head.last)?;
    out.push_str(" ")?;
    put_last(out, &head.body)
}

/// Puts the type before a loop's variable, or `-`.
fn put_loop_type(out: &mut String, ty: Option<TypeText>) -> Result<(), AllocError> {
    match ty {
        None => out.push_str("-"),
        Some(ty) => put_type(out, ty),
    }
}

/// Puts what stands before the branches of an `if`.
fn put_if(out: &mut String, condition: &Expr) -> Result<(), AllocError> {
    out.push_str("(if")?;
    put_behind(out, condition)?;
    out.push_str(" ")
}

/// Puts declarations of one type.
fn put_locals(out: &mut String, ty: TypeText, decls: &[Decl]) -> Result<(), AllocError> {
    out.push_str("(let ")?;
    put_type(out, ty)?;
    for decl in decls {
        out.push_str(" ")?;
        put_decl(out, decl)?;
    }
    out.push_str(")")
}

/// Puts a declaration: its name, in brackets with its value if it has one.
fn put_decl(out: &mut String, decl: &Decl) -> Result<(), AllocError> {
    match &decl.value {
        None => out.push_str(decl.name.as_str()),
        Some(value) => {
            out.push_str("(")?;
            out.push_str(decl.name.as_str())?;
            put_behind(out, value)?;
            out.push_str(")")
        }
    }
}

/// Puts an assignment: its symbol, its place and its value.
fn put_assign(out: &mut String, assign: &Assign) -> Result<(), AllocError> {
    out.push_str("(")?;
    match assign.op {
        None => {}
        Some(op) => out.push_str(binary_text(op))?,
    }
    out.push_str("= ")?;
    put_place(out, &assign.target)?;
    put_behind(out, &assign.value)?;
    out.push_str(")")
}

/// Puts a place that an assignment writes.
fn put_place(out: &mut String, place: &Lvalue) -> Result<(), AllocError> {
    match &place.kind {
        LvalueKind::Name(name) => out.push_str(name.as_str()),
        LvalueKind::Pc => out.push_str("PC"),
        LvalueKind::X(e) => {
            out.push_str("(X ")?;
            put_expr(out, e)?;
            out.push_str(")")
        }
        LvalueKind::Mem(high, low) => {
            out.push_str("(MEM ")?;
            put_expr(out, high)?;
            put_option(out, low)?;
            out.push_str(")")
        }
    }
}
