ghost use Rattle.std.specs.Prelude.{◌≡◌, ◌+◌, List, [], option_map, IfOk, OnOk, map};
ghost use Rattle.ix_bits.specs.declared.number.Bits.{Bits};
ghost use Rattle.ix_graph.specs.declared.kind.Kind.TheVariants.{RdPC};
ghost use Rattle.ix_tree.specs.TypedView.{typed_view, typed_option, typed_decl, typed_assign, typed_whole, typed_items};
ghost use Rattle.ix_mean.specs.Core.{u32 as word_type, x_const, x_read, st_skip, st_write};
ghost use Rattle.ix_mean.specs.View.{view_expression, view_statement, view_statements};
ghost use Rattle.ix_mean.specs.Resolving.{slot_in};
ghost use Rattle.ix_mean.specs.ResolvingStatements.{operated, no_address, name_written, register_written, store_type, left};
ghost use Rattle.ix_slots.specs.Found.{entries_of, numbered};
ghost use Rattle.ix_slots.specs.Spawned.{spawned_in, spawned_among, made_spawned, made_row_spawned};
ghost use Rattle.ix_slots.specs.Made.{made, made_initial, made_declared, made_declarations, made_assigned, made_step, made_row};

use crate::expression::{expression, word};
use crate::field::zeros;
use crate::locals::Locals;
use crate::names::{Custom, Names};
use crate::types::{joined, type_near, type_of, type_of_text};
use ix_bits::{BinOp, List, Memory, Name, Ty};
use ix_graph::Kind;
use ix_mean::{ResolvedExpr, ResolvedStmt, Writing};
use ix_tree::{
    TypedAssign, TypedDecl, TypedExpr, TypedExprKind, TypedLvalueKind, TypedStmt, TypedStmtKind,
};
use std::alloc::Global;

// A statement that does nothing.
fn nothing(alloc: Global) -> ResolvedStmt
    ensures body { (tables : List (List Bits)) → view_statement tables result ≡ st_skip }
    ensures plain { spawned_in result ≡ [] }
{
    ResolvedStmt::Block(List::new(alloc))
}

// 0 in a type.
fn zero(ty: Ty) -> ResolvedExpr
    ensures { (tables : List (List Bits)) → view_expression tables result ≡ x_const ty 0 }
{
    ResolvedExpr::Const(ty, zeros(ty))
}

// A local's first value, 0 where none is written.
fn initial(
    alloc: Global,
    names: &Names,
    locals: &Locals,
    ty: Ty,
    value: &Option<TypedExpr>,
) -> Result<ResolvedExpr, Memory>
    ensures { IfOk result (λ r. view_expression (entries_of names.now.tables) r ≡ made_initial names.now locals.now ty (typed_option value.now)) }
{
    match value {
        None => Ok(zero(ty)),
        Some(e) => expression(alloc, names, locals, e),
    }
}

// A declaration sets the local's slot.
fn declaration(
    alloc: Global,
    names: &Names,
    locals: &mut Locals,
    ty: Ty,
    decl: &TypedDecl,
) -> Result<ResolvedStmt, Memory>
    ensures body { IfOk result (λ r. view_statement (entries_of names.now.tables) r ≡ (made_declared names.now ty (typed_decl decl.now) locals.old).body) }
    ensures scope { OnOk result (locals.new ≡ (made_declared names.now ty (typed_decl decl.now) locals.old).scope) }
    ensures plain { IfOk result (λ r. spawned_in r ≡ []) }
{
    let value = initial(alloc, names, locals, ty, &decl.value)?;
    let slot = locals.declare(&decl.name, ty)?;
    Ok(ResolvedStmt::Set(slot, ty, value))
}

// Declarations, one behind the other.
fn declarations(
    alloc: Global,
    names: &Names,
    locals: &mut Locals,
    ty: Ty,
    decls: &[TypedDecl],
) -> Result<ResolvedStmt, Memory>
    ensures body { IfOk result (λ r. view_statement (entries_of names.now.tables) r ≡ (made_declarations names.now ty (map typed_decl decls.now) locals.old).body) }
    ensures scope { OnOk result (locals.new ≡ (made_declarations names.now ty (map typed_decl decls.now) locals.old).scope) }
    ensures plain { IfOk result (λ r. spawned_in r ≡ []) }
{
    let mut all = List::new(alloc);
    for decl in decls {
        all.push(declaration(alloc, names, locals, ty, decl)?)?;
    }
    Ok(ResolvedStmt::Block(all))
}

// `a op= e` is `a = (T)(a op e)`.
fn operated(
    alloc: Global,
    op: Option<BinOp>,
    ty: Ty,
    old: ResolvedExpr,
    e: ResolvedExpr,
) -> Result<ResolvedExpr, Memory>
    ensures { (tables : List (List Bits)) → IfOk result (λ r. view_expression tables r ≡ operated op ty (view_expression tables old) (view_expression tables e)) }
{
    match op {
        None => {
            drop(old);
            Ok(e)
        }
        Some(op) => {
            let wide = joined(op, type_of(&old), type_of(&e));
            let result = ResolvedExpr::Two(op, wide, Box::new(alloc, old)?, Box::new(alloc, e)?);
            Ok(ResolvedExpr::Cast(ty, Box::new(alloc, result)?))
        }
    }
}

// A write of a target without an address.
fn write(target: usize, ty: Ty, value: ResolvedExpr) -> ResolvedStmt
    ensures body { (tables : List (List Bits)) → view_statement tables result ≡ st_write target ty (view_expression tables value) no_address }
    ensures plain { spawned_in result ≡ [] }
{
    ResolvedStmt::Write(Writing {
        target,
        ty,
        value,
        address: zero(word()),
    })
}

// An assignment to a name: a local, or a custom register.
fn write_name(
    alloc: Global,
    names: &Names,
    locals: &Locals,
    op: Option<BinOp>,
    name: &str,
    e: ResolvedExpr,
) -> Result<ResolvedStmt, Memory>
    ensures body { (tables : List (List Bits)) → IfOk result (λ r. view_statement tables r ≡ name_written names.now op name.now (view_expression tables e) (slot_in locals.now.locals name.now)) }
    ensures plain { IfOk result (λ r. spawned_in r ≡ []) }
{
    match locals.find(name) {
        Some(place) => {
            let old = ResolvedExpr::Slot(place.slot, place.ty);
            let value = operated(alloc, op, place.ty, old, e)?;
            Ok(ResolvedStmt::Set(place.slot, place.ty, value))
        }
        None => write_custom(alloc, op, e, names.custom(name)),
    }
}

fn write_custom(
    alloc: Global,
    op: Option<BinOp>,
    e: ResolvedExpr,
    custom: Option<Custom>,
) -> Result<ResolvedStmt, Memory>
    ensures body { (tables : List (List Bits)) → IfOk result (λ r. view_statement tables r ≡ register_written op (view_expression tables e) (option_map numbered custom)) }
    ensures plain { IfOk result (λ r. spawned_in r ≡ []) }
{
    match custom {
        None => {
            drop(e);
            Ok(nothing(alloc))
        }
        Some(custom) => {
            let old = ResolvedExpr::Read(Kind::RdCustReg(custom.number), custom.ty);
            let value = operated(alloc, op, custom.ty, old, e)?;
            Ok(write(3 + usize::from(custom.number), custom.ty, value))
        }
    }
}

fn write_pc(alloc: Global, op: Option<BinOp>, e: ResolvedExpr) -> Result<ResolvedStmt, Memory>
    ensures body { (tables : List (List Bits)) → IfOk result (λ r. view_statement tables r ≡ st_write 2 word_type (operated op word_type (x_read RdPC word_type) (view_expression tables e)) no_address) }
    ensures plain { IfOk result (λ r. spawned_in r ≡ []) }
{
    let old = ResolvedExpr::Read(Kind::RdPC, word());
    Ok(write(2, word(), operated(alloc, op, word(), old, e)?))
}

// The type of what is stored at `MEM[a+n:a]`, by the tree before the colon.
fn store_type(e: &TypedExpr) -> Ty
    ensures { result ≡ store_type (typed_view e.now) }
{
    match &e.kind {
        TypedExprKind::Binary(_, _, by) => match &by.kind {
            TypedExprKind::Literal(_, bits) => type_near(false, 8 * bits.raw.min(255) + 8),
            _ => type_near(false, 8),
        },
        _ => type_near(false, 8),
    }
}

fn store(
    alloc: Global,
    names: &Names,
    locals: &Locals,
    ty: Ty,
    at: &TypedExpr,
    value: ResolvedExpr,
) -> Result<ResolvedStmt, Memory>
    ensures body { let tables = entries_of names.now.tables in IfOk result (λ r. view_statement tables r ≡ st_write 0 ty (view_expression tables value) (made names.now locals.now.locals (typed_view at.now))) }
    ensures plain { IfOk result (λ r. spawned_in r ≡ []) }
{
    let address = expression(alloc, names, locals, at)?;
    Ok(ResolvedStmt::Write(Writing {
        target: 0,
        ty,
        value,
        address,
    }))
}

// An assignment.
fn assign(
    alloc: Global,
    names: &Names,
    locals: &Locals,
    assign: &TypedAssign,
) -> Result<ResolvedStmt, Memory>
    ensures body { IfOk result (λ r. view_statement (entries_of names.now.tables) r ≡ made_assigned names.now locals.now (typed_assign assign.now)) }
    ensures plain { IfOk result (λ r. spawned_in r ≡ []) }
{
    let value = expression(alloc, names, locals, &assign.value)?;
    match &assign.target.kind {
        TypedLvalueKind::Name(name) => {
            let written = write_name(alloc, names, locals, assign.op, name.as_str(), value)?;
            Ok(written)
        }
        TypedLvalueKind::Pc => {
            let written = write_pc(alloc, assign.op, value)?;
            Ok(written)
        }
        TypedLvalueKind::X(_) => Ok(write(1, word(), value)),
        TypedLvalueKind::Mem(at, None) => {
            let stored = store(alloc, names, locals, type_near(false, 8), at, value)?;
            Ok(stored)
        }
        TypedLvalueKind::Mem(h, Some(l)) => {
            let stored = store(alloc, names, locals, store_type(h), l, value)?;
            Ok(stored)
        }
    }
}

/// The statement with its names resolved.
#[cycle(statements)]
pub(crate) fn statement(
    alloc: Global,
    names: &Names,
    locals: &mut Locals,
    x: &TypedStmt,
) -> Result<ResolvedStmt, Memory>
    ensures body { IfOk result (λ r. view_statement (entries_of names.now.tables) r ≡ (made_step names.now (typed_whole x.now) locals.old).body) }
    ensures scope { OnOk result (locals.new ≡ (made_step names.now (typed_whole x.now) locals.old).scope) }
    ensures spawns { IfOk result (λ r. spawned_in r ≡ made_spawned names.now (typed_whole x.now) locals.old) }
{
    match &x.kind {
        TypedStmtKind::Block(all) => {
            let count = locals.len();
            let body = statements(alloc, names, locals, all.as_slice())?;
            locals.keep(count);
            Ok(ResolvedStmt::Block(body))
        }
        TypedStmtKind::Empty => Ok(nothing(alloc)),
        TypedStmtKind::Locals(text, decls) => {
            declarations(alloc, names, locals, type_of_text(*text), decls.as_slice())
        }
        TypedStmtKind::Assign(a) => assign(alloc, names, locals, a),
        TypedStmtKind::If(c, x, None) => {
            let c = expression(alloc, names, locals, c)?;
            let x = scoped(alloc, names, locals, x)?;
            Ok(ResolvedStmt::If(c, x, Box::new(alloc, nothing(alloc))?))
        }
        TypedStmtKind::If(c, x, Some(y)) => {
            let c = expression(alloc, names, locals, c)?;
            let x = scoped(alloc, names, locals, x)?;
            Ok(ResolvedStmt::If(c, x, scoped(alloc, names, locals, y)?))
        }
        TypedStmtKind::Spawn(x) => Ok(ResolvedStmt::Spawn(scoped(alloc, names, locals, x)?)),
    }
}

// A statement behind which its locals are gone.
#[cycle(statements)]
fn scoped(
    alloc: Global,
    names: &Names,
    locals: &mut Locals,
    x: &TypedStmt,
) -> Result<Box<ResolvedStmt>, Memory>
    ensures body { IfOk result (λ r. view_statement (entries_of names.now.tables) r.value ≡ (made_step names.now (typed_whole x.now) locals.old).body) }
    ensures scope { OnOk result (locals.new ≡ left locals.old (made_step names.now (typed_whole x.now) locals.old).scope) }
    ensures spawns { IfOk result (λ r. spawned_in r.value ≡ made_spawned names.now (typed_whole x.now) locals.old) }
{
    let count = locals.len();
    let body = statement(alloc, names, locals, x)?;
    locals.keep(count);
    Ok(Box::new(alloc, body)?)
}

/// Statements with their names resolved, one behind the other.
#[cycle(statements)]
pub fn statements(
    alloc: Global,
    names: &Names,
    locals: &mut Locals,
    all: &[TypedStmt],
) -> Result<List<ResolvedStmt>, Memory>
    ensures body { IfOk result (λ r. view_statements (entries_of names.now.tables) r ≡ (made_row names.now (typed_items all.now) locals.old).body) }
    ensures scope { OnOk result (locals.new ≡ (made_row names.now (typed_items all.now) locals.old).scope) }
    ensures spawns { IfOk result (λ r. spawned_among r ≡ made_row_spawned names.now (typed_items all.now) locals.old) }
{
    let mut out = List::new(alloc);
    for x in all {
        out.push(statement(alloc, names, locals, x)?)?;
    }
    Ok(out)
}
