ghost use Rattle.std.specs.Prelude.{◌≡◌, Result, Ok};
ghost use Rattle.ix_tree.specs.TypedTrees.{t_binary, t_choose};
ghost use Rattle.ix_tree.specs.TypedView.{typed_view};
ghost use Rattle.ix_typing.specs.Refusals.{Refusal};
ghost use Rattle.ix_typing.specs.Expressions.{literal, paired, unary_type, binary_type, common_type, unary, casted, cast, binary, choose};
ghost use Rattle.ix_typing.specs.Expressions as T;
ghost use Rattle.ix_check_parts.specs.Telling.{seen, seen_pair, Tells, TellsPair, TellsType};

use crate::CheckErr;
use crate::judged::{Judged, Pair};
use crate::types::{type_near, written_type};
use ix_bits::{BinOp, Bits, Ty, UnOp, boxed, boxed_pair, boxed_triple};
use ix_tree::{CastTo, Span, TypedExpr, TypedExprKind};
use ix_types::{TypeErr, common, type_of_binary, type_of_unary};
use std::alloc::Global;

/// A literal.
pub fn literal(span: Span, ty: Ty, bits: Bits, accessed: bool) -> Judged
    ensures { seen result ≡ literal span ty bits accessed }
{
    Judged {
        tree: TypedExpr {
            span,
            ty,
            kind: TypedExprKind::Literal(ty, bits),
        },
        accessed,
    }
}

/// Two expressions, where the second has a type.
pub fn pair(first: Judged, second: Result<Judged, CheckErr>) -> Result<Pair, CheckErr>
    ensures { (r : Result T.Judged Refusal) → Tells second r → TellsPair result (paired (seen first) r) }
{
    match second {
        Err(error) => {
            drop(first);
            Err(error)
        }
        Ok(second) => Ok(Pair { first, second }),
    }
}

/// The type of `op a`.
fn unary_type(span: Span, op: UnOp, a: Ty) -> Result<Ty, CheckErr>
    ensures { TellsType result (unary_type span op a) }
{
    match type_of_unary(op, a) {
        Err(TypeErr::TooWide) => Err(CheckErr::TooWide { span }),
        Err(TypeErr::Mixed) => Err(CheckErr::Mixed { span }),
        Ok(ty) => Ok(ty),
    }
}

/// The type of `a op b`.
pub fn binary_type(span: Span, op: BinOp, a: Ty, b: Ty) -> Result<Ty, CheckErr>
    ensures { TellsType result (binary_type span op a b) }
{
    match type_of_binary(op, a, b) {
        Err(TypeErr::TooWide) => Err(CheckErr::TooWide { span }),
        Err(TypeErr::Mixed) => Err(CheckErr::Mixed { span }),
        Ok(ty) => Ok(ty),
    }
}

/// The type of `c ? a : b`.
fn common_type(span: Span, a: Ty, b: Ty) -> Result<Ty, CheckErr>
    ensures { TellsType result (common_type span a b) }
{
    match common(a, b) {
        Err(TypeErr::TooWide) => Err(CheckErr::TooWide { span }),
        Err(TypeErr::Mixed) => Err(CheckErr::Mixed { span }),
        Ok(ty) => Ok(ty),
    }
}

/// An operator on one expression.
pub fn unary(
    alloc: Global,
    span: Span,
    op: UnOp,
    x: Result<Judged, CheckErr>,
) -> Result<Judged, CheckErr>
    ensures { (r : Result T.Judged Refusal) → Tells x r → Tells result (unary span op r) }
{
    match x {
        Err(error) => Err(error),
        Ok(x) => match unary_type(span, op, x.tree.ty) {
            Err(error) => {
                drop(x);
                Err(error)
            }
            Ok(ty) => match boxed(alloc, x.tree) {
                Err(_) => Err(CheckErr::Memory),
                Ok(tree) => Ok(Judged {
                    tree: TypedExpr {
                        span,
                        ty,
                        kind: TypedExprKind::Unary(op, tree),
                    },
                    accessed: x.accessed,
                }),
            },
        },
    }
}

/// A cast, whose written type is judged before its operand.
pub fn cast(
    alloc: Global,
    span: Span,
    to: CastTo,
    x: Result<Judged, CheckErr>,
) -> Result<Judged, CheckErr>
    ensures { (r : Result T.Judged Refusal) → Tells x r → Tells result (cast span to r) }
{
    match to {
        CastTo::Written(text) => match written_type(text) {
            Err(error) => {
                drop(x);
                Err(error)
            }
            Ok(ty) => match x {
                Err(error) => Err(error),
                Ok(x) => cast_to(alloc, span, to, ty, x),
            },
        },
        CastTo::Signed => match x {
            Err(error) => Err(error),
            Ok(x) => {
                let ty = type_near(true, u128::from(x.tree.ty.width));
                cast_to(alloc, span, to, ty, x)
            }
        },
        CastTo::Unsigned => match x {
            Err(error) => Err(error),
            Ok(x) => {
                let ty = type_near(false, u128::from(x.tree.ty.width));
                cast_to(alloc, span, to, ty, x)
            }
        },
    }
}

fn cast_to(alloc: Global, span: Span, to: CastTo, ty: Ty, x: Judged) -> Result<Judged, CheckErr>
    ensures { Tells result (Ok (casted span to ty (seen x))) }
{
    match boxed(alloc, x.tree) {
        Err(_) => Err(CheckErr::Memory),
        Ok(tree) => Ok(Judged {
            tree: TypedExpr {
                span,
                ty,
                kind: TypedExprKind::Cast(to, tree),
            },
            accessed: x.accessed,
        }),
    }
}

/// An operator on two expressions.
pub fn binary(
    alloc: Global,
    span: Span,
    op: BinOp,
    x: Judged,
    y: Result<Judged, CheckErr>,
) -> Result<Judged, CheckErr>
    ensures { (r : Result T.Judged Refusal) → Tells y r → Tells result (binary span op (seen x) r) }
{
    match y {
        Err(error) => {
            drop(x);
            Err(error)
        }
        Ok(y) => match binary_type(span, op, x.tree.ty, y.tree.ty) {
            Err(error) => {
                drop(x);
                drop(y);
                Err(error)
            }
            Ok(ty) => operated(alloc, span, ty, op, x.tree, y),
        },
    }
}

fn operated(
    alloc: Global,
    span: Span,
    ty: Ty,
    op: BinOp,
    x: TypedExpr,
    y: Judged,
) -> Result<Judged, CheckErr>
    ensures { Tells result (Ok (record { tree = t_binary span ty op (typed_view x) (typed_view y.tree); ty = ty; accessed = y.accessed })) }
{
    match boxed_pair(alloc, x, y.tree) {
        Err(_) => Err(CheckErr::Memory),
        Ok((x, tree)) => Ok(Judged {
            tree: TypedExpr {
                span,
                ty,
                kind: TypedExprKind::Binary(op, x, tree),
            },
            accessed: y.accessed,
        }),
    }
}

/// A choice between two expressions.
pub fn choose(
    alloc: Global,
    span: Span,
    both: Pair,
    y: Result<Judged, CheckErr>,
) -> Result<Judged, CheckErr>
    ensures { (r : Result T.Judged Refusal) → Tells y r → Tells result (choose span (seen_pair both) r) }
{
    match y {
        Err(error) => {
            drop(both);
            Err(error)
        }
        Ok(y) => match common_type(span, both.second.tree.ty, y.tree.ty) {
            Err(error) => {
                drop(both);
                drop(y);
                Err(error)
            }
            Ok(ty) => chosen(alloc, span, ty, both, y),
        },
    }
}

fn chosen(alloc: Global, span: Span, ty: Ty, both: Pair, y: Judged) -> Result<Judged, CheckErr>
    ensures { Tells result (Ok (record { tree = t_choose span ty (typed_view both.first.tree) (typed_view both.second.tree) (typed_view y.tree); ty = ty; accessed = y.accessed })) }
{
    match boxed_triple(alloc, both.first.tree, both.second.tree, y.tree) {
        Err(_) => Err(CheckErr::Memory),
        Ok((c, x, tree)) => Ok(Judged {
            tree: TypedExpr {
                span,
                ty,
                kind: TypedExprKind::Choose(c, x, tree),
            },
            accessed: y.accessed,
        }),
    }
}
