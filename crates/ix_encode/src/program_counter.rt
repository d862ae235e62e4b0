ghost use Rattle.std.specs.Prelude.{◌≡◌, ◌≤◌, length, map};
ghost use Rattle.ix_tree.specs.TypedView.{typed_whole, typed_items, typed_lvalue};
ghost use Rattle.ix_extension.specs.Extensions.{view_behaviour};
ghost use Rattle.ix_extension.specs.Faults.{is_pc, writes_pc, row_writes_pc, any_writes_pc, count_pc_blocks};

use ix_tree::{Behaviour, TypedLvalueKind, TypedStmt, TypedStmtKind};

fn is_pc(place: &TypedLvalueKind) -> bool
    ensures { result ≡ is_pc (typed_lvalue place.now) }
{
    match place {
        TypedLvalueKind::Pc => true,
        TypedLvalueKind::Name(_) | TypedLvalueKind::X(_) | TypedLvalueKind::Mem(..) => false,
    }
}

// Whether the statement assigns PC, below whatever condition.
#[cycle(statements)]
fn writes_pc(stmt: &TypedStmt) -> bool
    ensures { result ≡ writes_pc (typed_whole stmt.now) }
{
    match &stmt.kind {
        TypedStmtKind::Block(all) => row_writes_pc(all.as_slice()),
        TypedStmtKind::Empty | TypedStmtKind::Locals(..) => false,
        TypedStmtKind::Assign(assign) => is_pc(&assign.target.kind),
        TypedStmtKind::If(_, x, None) => writes_pc(x),
        TypedStmtKind::If(_, x, Some(y)) => writes_pc(x) || writes_pc(y),
        TypedStmtKind::Spawn(x) => writes_pc(x),
    }
}

#[cycle(statements)]
fn row_writes_pc(all: &[TypedStmt]) -> bool
    ensures { result ≡ row_writes_pc (typed_items all.now) }
{
    for stmt in all {
        if writes_pc(stmt) {
            return true;
        }
    }
    false
}

// Whether one of the statements assigns PC.
fn any_writes_pc(all: &[TypedStmt]) -> bool
    ensures { result ≡ any_writes_pc (map typed_whole all.now) }
{
    for stmt in all {
        if writes_pc(stmt) {
            return true;
        }
    }
    false
}

/// How many blocks assign PC.
pub fn count_pc_blocks(blocks: &[Behaviour]) -> usize
    ensures count { result ≡ count_pc_blocks (map view_behaviour blocks.now) }
    ensures most { result ≤ length blocks.now }
{
    let mut count = 0;
    for block in blocks {
        if any_writes_pc(block.body.as_slice()) {
            count += 1;
        }
    }
    count
}
