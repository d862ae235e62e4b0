ghost use Rattle.std.specs.Prelude.{◌≡◌, map, false, if◌then◌else◌};
ghost use Rattle.ix_tree.specs.Lexing.{same_bytes};
ghost use Rattle.ix_tree.specs.TypedView.{typed_view, typed_option, typed_lvalue, typed_assign, typed_decl, typed_whole, typed_items};
ghost use Rattle.rv_asm_text.specs.Indexing.{is_x as specified_is_x, is_field as specified_is_field, expr_indexes as specified_expr_indexes, option_indexes as specified_option_indexes, place_indexes as specified_place_indexes, assign_indexes as specified_assign_indexes, decls_index, stmt_indexes as specified_stmt_indexes, row_indexes as specified_row_indexes, body_indexes as specified_body_indexes};

use ix_bits::Name;
use ix_tree::{
    TypedAssign, TypedDecl, TypedExpr, TypedExprKind, TypedLvalueKind, TypedStmt, TypedStmtKind,
};

/// Whether a name is this text.
pub(crate) fn is_same(name: &Name, text: &str) -> bool
    ensures { result ≡ same_bytes name.now text.now }
{
    name.as_str() == text
}

fn is_x(e: &TypedExpr) -> bool
    ensures { result ≡ specified_is_x (typed_view e.now) }
{
    match &e.kind {
        TypedExprKind::X => true,
        _ => false,
    }
}

fn is_field(field: &str, e: &TypedExpr) -> bool
    ensures { result ≡ specified_is_field field.now (typed_view e.now) }
{
    match &e.kind {
        TypedExprKind::Name(name) => is_same(name, field),
        _ => false,
    }
}

// Whether `x[at]` is X indexed by the field.
fn is_indexed(field: &str, x: &TypedExpr, at: &TypedExpr) -> bool
    ensures { result ≡ (if specified_is_x (typed_view x.now) then specified_is_field field.now (typed_view at.now) else false) }
{
    if is_x(x) { is_field(field, at) } else { false }
}

// Whether an expression indexes X by a field.
fn expr_indexes(e: &TypedExpr, field: &str) -> bool
    ensures { result ≡ specified_expr_indexes field.now (typed_view e.now) }
{
    match &e.kind {
        TypedExprKind::Literal(..)
        | TypedExprKind::Name(_)
        | TypedExprKind::Pc
        | TypedExprKind::X
        | TypedExprKind::Mem => false,
        TypedExprKind::Index(x, at) => {
            is_indexed(field, x, at) || expr_indexes(x, field) || expr_indexes(at, field)
        }
        TypedExprKind::Range(x, h, l) => {
            expr_indexes(x, field) || expr_indexes(h, field) || expr_indexes(l, field)
        }
        TypedExprKind::Unary(_, x) => expr_indexes(x, field),
        TypedExprKind::Cast(_, x) => expr_indexes(x, field),
        TypedExprKind::Binary(_, x, y) => expr_indexes(x, field) || expr_indexes(y, field),
        TypedExprKind::Choose(c, x, y) => {
            expr_indexes(c, field) || expr_indexes(x, field) || expr_indexes(y, field)
        }
    }
}

fn option_indexes(e: &Option<TypedExpr>, field: &str) -> bool
    ensures { result ≡ specified_option_indexes field.now (typed_option e.now) }
{
    match e {
        None => false,
        Some(e) => expr_indexes(e, field),
    }
}

fn place_indexes(place: &TypedLvalueKind, field: &str) -> bool
    ensures { result ≡ specified_place_indexes field.now (typed_lvalue place.now) }
{
    match place {
        TypedLvalueKind::Name(_) | TypedLvalueKind::Pc => false,
        TypedLvalueKind::X(at) => is_field(field, at) || expr_indexes(at, field),
        TypedLvalueKind::Mem(from, to) => expr_indexes(from, field) || option_indexes(to, field),
    }
}

fn assign_indexes(assign: &TypedAssign, field: &str) -> bool
    ensures { result ≡ specified_assign_indexes field.now (typed_assign assign.now) }
{
    place_indexes(&assign.target.kind, field) || expr_indexes(&assign.value, field)
}

fn decls_index(decls: &[TypedDecl], field: &str) -> bool
    ensures { result ≡ decls_index field.now (map typed_decl decls.now) }
{
    let mut left = decls;
    while let Some((decl, rest)) = left.split_first() {
        if option_indexes(&decl.value, field) {
            return true;
        }
        left = rest;
    }
    false
}

// Whether a statement indexes X by a field.
#[cycle(statements)]
fn stmt_indexes(stmt: &TypedStmt, field: &str) -> bool
    ensures { result ≡ specified_stmt_indexes field.now (typed_whole stmt.now) }
{
    match &stmt.kind {
        TypedStmtKind::Block(all) => row_indexes(all.as_slice(), field),
        TypedStmtKind::Empty => false,
        TypedStmtKind::Locals(_, decls) => decls_index(decls.as_slice(), field),
        TypedStmtKind::Assign(assign) => assign_indexes(assign, field),
        TypedStmtKind::If(c, x, None) => expr_indexes(c, field) || stmt_indexes(x, field),
        TypedStmtKind::If(c, x, Some(y)) => {
            expr_indexes(c, field) || stmt_indexes(x, field) || stmt_indexes(y, field)
        }
        TypedStmtKind::Spawn(x) => stmt_indexes(x, field),
    }
}

#[cycle(statements)]
fn row_indexes(all: &[TypedStmt], field: &str) -> bool
    ensures { result ≡ specified_row_indexes field.now (typed_items all.now) }
{
    for stmt in all {
        if stmt_indexes(stmt, field) {
            return true;
        }
    }
    false
}

/// Whether a behaviour indexes X by a field, in what it reads or in what it writes.
pub(crate) fn body_indexes(body: &[TypedStmt], field: &str) -> bool
    ensures { result ≡ specified_body_indexes field.now (map typed_whole body.now) }
{
    let mut left = body;
    while let Some((stmt, rest)) = left.split_first() {
        if stmt_indexes(stmt, field) {
            return true;
        }
        left = rest;
    }
    false
}
