ghost use Rattle.std.specs.Prelude.{◌≡◌, IfOk};
ghost use Rattle.ix_tree.specs.Trees.{between, p_primary, p_unary, p_cast, p_binary, p_round, p_index, p_range, p_choose};
ghost use Rattle.ix_tree.specs.View.{view};
ghost use Rattle.ix_parse_state.specs.Parts.{part_of};

use crate::chain::{Indexed, Operand};
use crate::operator::{binary_operator, power};
use crate::part::Part;
use ix_bits::{Memory, UnOp, boxed, boxed_pair, boxed_triple};
use ix_tree::{CastTo, Expr, ExprKind, Span, Token};
use std::alloc::Global;

/// How tightly an index holds what stands before it.
pub const INDEX_POWER: u8 = 26;

/// From the first byte of one token to the last of another.
pub fn between(first: &Token, last: &Token) -> Span
    ensures { result ≡ between first.now last.now }
{
    Span {
        from: first.span.from,
        to: last.span.to,
    }
}

/// An expression that is one token.
pub fn leaf(token: &Token, tree: Expr) -> Part
    ensures { part_of result ≡ p_primary token.now (view tree) }
{
    Part {
        from: token.span.from,
        to: token.span.to,
        tree,
        chain: INDEX_POWER,
        count: 0,
    }
}

/// An operator on one number before its operand.
pub fn unary(alloc: Global, token: &Token, op: UnOp, v: Part) -> Result<Part, Memory>
    ensures { IfOk result (λ r. part_of r ≡ p_unary token.now op (part_of v)) }
{
    let from = token.span.from;
    let to = v.to;
    let operand = boxed(alloc, v.tree)?;
    Ok(Part {
        from,
        to,
        tree: Expr {
            span: Span { from, to },
            kind: ExprKind::Unary(op, operand),
        },
        chain: 0,
        count: 0,
    })
}

/// A cast before its operand.
pub fn cast(alloc: Global, token: &Token, to: CastTo, v: Part) -> Result<Part, Memory>
    ensures { IfOk result (λ r. part_of r ≡ p_cast token.now to (part_of v)) }
{
    let from = token.span.from;
    let end = v.to;
    let operand = boxed(alloc, v.tree)?;
    Ok(Part {
        from,
        to: end,
        tree: Expr {
            span: Span { from, to: end },
            kind: ExprKind::Cast(to, operand),
        },
        chain: 0,
        count: 0,
    })
}

/// An operator between its operands.
pub fn binary(alloc: Global, x: Operand, y: Part) -> Result<Part, Memory>
    ensures { IfOk result (λ r. part_of r ≡ p_binary (part_of x.left) x.token (part_of y)) }
{
    let Operand {
        left,
        token,
        count,
        ..
    } = x;
    let op = binary_operator(&token);
    let chain = power(&token);
    drop(token);
    let from = left.from;
    let to = y.to;
    let (first, second) = boxed_pair(alloc, left.tree, y.tree)?;
    Ok(Part {
        from,
        to,
        tree: Expr {
            span: Span { from, to },
            kind: ExprKind::Binary(op, first, second),
        },
        chain,
        count,
    })
}

/// An expression in round brackets.
pub fn round(first: &Token, v: Part, last: &Token) -> Part
    ensures { part_of result ≡ p_round first.now (part_of v) last.now }
{
    Part {
        from: first.span.from,
        to: last.span.to,
        tree: v.tree,
        chain: INDEX_POWER,
        count: 0,
    }
}

/// An index behind what it picks from.
pub fn index(alloc: Global, x: Indexed, y: Part, last: &Token) -> Result<Part, Memory>
    ensures { IfOk result (λ r. part_of r ≡ p_index (part_of x.left) (part_of y) last.now) }
{
    let count = x.count;
    let from = x.left.from;
    let to = last.span.to;
    let (first, second) = boxed_pair(alloc, x.left.tree, y.tree)?;
    Ok(Part {
        from,
        to,
        tree: Expr {
            span: Span { from, to },
            kind: ExprKind::Index(first, second),
        },
        chain: INDEX_POWER,
        count,
    })
}

/// Two indices behind what they pick from.
pub fn range(alloc: Global, x: Indexed, y: Part, z: Part, last: &Token) -> Result<Part, Memory>
    ensures { IfOk result (λ r. part_of r ≡ p_range (part_of x.left) (part_of y) (part_of z) last.now) }
{
    let count = x.count;
    let from = x.left.from;
    let to = last.span.to;
    let (first, second, third) = boxed_triple(alloc, x.left.tree, y.tree, z.tree)?;
    Ok(Part {
        from,
        to,
        tree: Expr {
            span: Span { from, to },
            kind: ExprKind::Range(first, second, third),
        },
        chain: INDEX_POWER,
        count,
    })
}

/// A choice by a condition.
pub fn choose(alloc: Global, c: Part, x: Part, y: Part) -> Result<Part, Memory>
    ensures { IfOk result (λ r. part_of r ≡ p_choose (part_of c) (part_of x) (part_of y)) }
{
    let from = c.from;
    let to = y.to;
    let (first, second, third) = boxed_triple(alloc, c.tree, x.tree, y.tree)?;
    Ok(Part {
        from,
        to,
        tree: Expr {
            span: Span { from, to },
            kind: ExprKind::Choose(first, second, third),
        },
        chain: 0,
        count: 0,
    })
}
