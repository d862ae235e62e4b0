ghost use Rattle.std.specs.Prelude.{◌≡◌, ◌≤◌, ◌^◌, ◌<◌, map, IfOk};
ghost use Rattle.ix_tree.specs.LoopHeads.{value_in};
ghost use Rattle.ix_tree.specs.View.{view, view_option, view_place, view_assign, view_decl};
ghost use Rattle.ix_tree.specs.Unrolling.{literal, number_tree, put_name, put, put_option, put_assign, put_decl, put_place};
ghost use Rattle.ix_unroll.specs.Scopes.{bindings};

use crate::scope::{Scope, value_in};
use ix_bits::{Bits, List, Memory, Name, Ty, UnOp, least_width};
use ix_tree::{Assign, Decl, Expr, ExprKind, Lvalue, LvalueKind, Span};
use std::alloc::Global;

/// A copy of the expression, with the values of the loop variables in their places.
#[cycle(expressions)]
pub fn put(alloc: Global, scope: &Scope, e: &Expr) -> Result<Expr, Memory>
    ensures { IfOk result (λ r. view r ≡ put (bindings scope.now) (view e.now)) }
{
    let kind = match &e.kind {
        ExprKind::Literal(ty, bits) => ExprKind::Literal(*ty, *bits),
        ExprKind::Name(name) => return put_name(alloc, scope, e.span, name),
        ExprKind::Pc => ExprKind::Pc,
        ExprKind::X => ExprKind::X,
        ExprKind::Mem => ExprKind::Mem,
        ExprKind::Index(x, l) => {
            ExprKind::Index(put_box(alloc, scope, x)?, put_box(alloc, scope, l)?)
        }
        ExprKind::Range(x, h, l) => ExprKind::Range(
            put_box(alloc, scope, x)?,
            put_box(alloc, scope, h)?,
            put_box(alloc, scope, l)?,
        ),
        ExprKind::Unary(op, x) => ExprKind::Unary(*op, put_box(alloc, scope, x)?),
        ExprKind::Cast(to, x) => ExprKind::Cast(*to, put_box(alloc, scope, x)?),
        ExprKind::Binary(op, x, y) => {
            ExprKind::Binary(*op, put_box(alloc, scope, x)?, put_box(alloc, scope, y)?)
        }
        ExprKind::Choose(c, x, y) => ExprKind::Choose(
            put_box(alloc, scope, c)?,
            put_box(alloc, scope, x)?,
            put_box(alloc, scope, y)?,
        ),
    };
    Ok(Expr { span: e.span, kind })
}

#[cycle(expressions)]
fn put_box(alloc: Global, scope: &Scope, e: &Expr) -> Result<Box<Expr>, Memory>
    ensures { IfOk result (λ r. view r.value ≡ put (bindings scope.now) (view e.now)) }
{
    Ok(Box::new(alloc, put(alloc, scope, e)?)?)
}

// A name, or the value of the loop variable that it is.
fn put_name(alloc: Global, scope: &Scope, span: Span, name: &Name) -> Result<Expr, Memory>
    ensures { IfOk result (λ r. view r ≡ put_name span name.now (value_in (bindings scope.now) name.now)) }
{
    match value_in(scope, name.as_str()) {
        None => Ok(Expr {
            span,
            kind: ExprKind::Name(Name::from_text(alloc, name.as_str())?),
        }),
        Some(value) => number(alloc, span, value),
    }
}

// An unsized literal, under a unary minus where the value is negative.
fn number(alloc: Global, span: Span, value: i32) -> Result<Expr, Memory>
    ensures { IfOk result (λ r. view r ≡ number_tree span value) }
{
    let literal = literal(span, value.unsigned_abs());
    let negative = value < 0;
    if negative {
        Ok(Expr {
            span,
            kind: ExprKind::Unary(UnOp::Neg, Box::new(alloc, literal)?),
        })
    } else {
        Ok(literal)
    }
}

fn literal(span: Span, value: u32) -> Expr
    ensures { view result ≡ literal span value }
{
    let raw = u128::from(value);
    let width = least_width(raw);
    Expr {
        span,
        kind: ExprKind::Literal(
            Ty {
                signed: false,
                width,
            },
            Bits { raw, width },
        ),
    }
}

pub fn put_option(alloc: Global, scope: &Scope, e: &Option<Expr>) -> Result<Option<Expr>, Memory>
    ensures { IfOk result (λ r. view_option r ≡ put_option (bindings scope.now) (view_option e.now)) }
{
    match e {
        None => Ok(None),
        Some(e) => Ok(Some(put(alloc, scope, e)?)),
    }
}

fn put_place(alloc: Global, scope: &Scope, place: &Lvalue) -> Result<Lvalue, Memory>
    ensures { IfOk result (λ r. view_place r ≡ put_place (bindings scope.now) (view_place place.now)) }
{
    let kind = match &place.kind {
        LvalueKind::Name(name) => LvalueKind::Name(Name::from_text(alloc, name.as_str())?),
        LvalueKind::Pc => LvalueKind::Pc,
        LvalueKind::X(e) => LvalueKind::X(put(alloc, scope, e)?),
        LvalueKind::Mem(e, f) => {
            let f = put_option(alloc, scope, f)?;
            let Ok(e) = put(alloc, scope, e) else {
                drop(f);
                return Err(Memory);
            };
            LvalueKind::Mem(e, f)
        }
    };
    Ok(Lvalue {
        span: place.span,
        kind,
    })
}

/// A copy of the assignment, with the values of the loop variables in their places.
pub fn put_assign(alloc: Global, scope: &Scope, assign: &Assign) -> Result<Assign, Memory>
    ensures { IfOk result (λ r. view_assign r ≡ put_assign (bindings scope.now) (view_assign assign.now)) }
{
    let target = put_place(alloc, scope, &assign.target)?;
    let Ok(value) = put(alloc, scope, &assign.value) else {
        drop(target);
        return Err(Memory);
    };
    Ok(Assign {
        span: assign.span,
        target,
        op: assign.op,
        value,
    })
}

fn put_decl(alloc: Global, scope: &Scope, decl: &Decl) -> Result<Decl, Memory>
    ensures { IfOk result (λ r. view_decl r ≡ put_decl (bindings scope.now) (view_decl decl.now)) }
{
    let value = put_option(alloc, scope, &decl.value)?;
    let Ok(name) = Name::from_text(alloc, decl.name.as_str()) else {
        drop(value);
        return Err(Memory);
    };
    Ok(Decl {
        span: decl.span,
        name,
        value,
    })
}

/// Copies of the declarations, with the values of the loop variables in their places.
pub fn put_decls(alloc: Global, scope: &Scope, decls: &[Decl]) -> Result<List<Decl>, Memory>
    ensures { IfOk result (λ r. map view_decl r ≡ map (put_decl (bindings scope.now)) (map view_decl decls.now)) }
{
    let mut all = Vec::new(alloc);
    for decl in decls {
        let decl = put_decl(alloc, scope, decl)?;
        ix_bits::put(&mut all, decl)?;
    }
    Ok(List::from_vec(all))
}
