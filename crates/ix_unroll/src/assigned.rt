ghost use Rattle.std.specs.Prelude.{◌≡◌, map, ◌||◌};
ghost use Rattle.ix_tree.specs.Lexing.{same_bytes};
ghost use Rattle.ix_tree.specs.View.{view_stmt, view_decl, view_lvalue};
ghost use Rattle.ix_tree.specs.Rows.{view_whole, view_items};
ghost use Rattle.ix_tree.specs.Unrolling.{touches, touches_row, declares, is_variable};

use ix_tree::{Decl, Loop, LvalueKind, Stmt, StmtKind};

/// Whether the statement assigns the name, declares it, or has a loop over it or whose last part assigns it.
#[cycle(touching)]
pub fn touches(name: &str, stmt: &Stmt) -> bool
    ensures { result ≡ touches name.now (view_whole stmt.now) }
{
    match &stmt.kind {
        StmtKind::Block(all) => touches_row(name, all.as_slice()),
        StmtKind::Empty => false,
        StmtKind::Locals(_, decls) => declares(name, decls.as_slice()),
        StmtKind::Assign(assign) => is_variable(name, &assign.target.kind),
        StmtKind::If(_, x, None) => touches(name, x),
        StmtKind::If(_, x, Some(y)) => touches(name, x) || touches(name, y),
        StmtKind::For(inner) => is_head_of(name, inner) || touches(name, &inner.body),
        StmtKind::Spawn(x) => touches(name, x),
    }
}

#[cycle(touching)]
fn touches_row(name: &str, all: &[Stmt]) -> bool
    ensures { result ≡ touches_row name.now (view_items all.now) }
{
    for stmt in all {
        if touches(name, stmt) {
            return true;
        }
    }
    false
}

// Whether the loop is over the name, or its last part assigns it.
fn is_head_of(name: &str, head: &Loop) -> bool
    ensures { result ≡ (same_bytes head.now.name name.now || is_variable name.now (view_lvalue head.now.last.target.kind)) }
{
    head.name.as_str() == name || is_variable(name, &head.last.target.kind)
}

// Whether one of the declarations is of the name.
fn declares(name: &str, decls: &[Decl]) -> bool
    ensures { result ≡ declares name.now (map view_decl decls.now) }
{
    for decl in decls {
        if decl.name.as_str() == name {
            return true;
        }
    }
    false
}

/// Whether the place that is written is the name.
pub fn is_variable(name: &str, place: &LvalueKind) -> bool
    ensures { result ≡ is_variable name.now (view_lvalue place.now) }
{
    match place {
        LvalueKind::Name(other) => other.as_str() == name,
        LvalueKind::Pc | LvalueKind::X(_) | LvalueKind::Mem(_, _) => false,
    }
}
