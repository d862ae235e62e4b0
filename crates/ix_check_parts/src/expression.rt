ghost use Rattle.ix_tree.specs.View.{view};
ghost use Rattle.ix_typing.specs.Expressions.{judged};
ghost use Rattle.ix_check_parts.specs.Telling.{Tells};

use crate::CheckErr;
use crate::element::{based, indexed, ranged, word};
use crate::judged::Judged;
use crate::node::{binary, cast, choose, literal, pair, unary};
use crate::words::{named, program_counter};
use ix_tree::{Expr, ExprKind};
use ix_typing::{Setting, State};
use std::alloc::Global;

/// The expression with its types, or the first rule that it breaks: operands before their operator, left to right.
pub fn expression(
    alloc: Global,
    setting: Setting,
    state: &State,
    accessed: bool,
    e: &Expr,
) -> Result<Judged, CheckErr>
    ensures { Tells result (judged setting state.now (view e.now) accessed) }
{
    match &e.kind {
        ExprKind::Literal(ty, bits) => Ok(literal(e.span, *ty, *bits, accessed)),
        ExprKind::Name(name) => named(alloc, setting, state, accessed, e.span, name),
        ExprKind::Pc => program_counter(setting, state, accessed, e.span),
        ExprKind::X | ExprKind::Mem => Err(CheckErr::Index { span: e.span }),
        ExprKind::Index(x, i) => {
            let base = expression(alloc, setting, state, accessed, x);
            match based(alloc, setting, state, accessed, x, base) {
                Err(error) => Err(error),
                Ok(base) => {
                    let index = expression(alloc, setting, state, base.accessed, i);
                    indexed(alloc, setting, state, e.span, x, i, base, index)
                }
            }
        }
        ExprKind::Range(x, h, l) => {
            let base = expression(alloc, setting, state, accessed, x);
            match word(setting, state, accessed, x, base) {
                Err(error) => Err(error),
                Ok(base) => {
                    let high = expression(alloc, setting, state, base.accessed, h);
                    match pair(base, high) {
                        Err(error) => Err(error),
                        Ok(both) => {
                            let low = expression(alloc, setting, state, both.second.accessed, l);
                            ranged(alloc, e.span, x, h, l, both, low)
                        }
                    }
                }
            }
        }
        ExprKind::Unary(op, x) => {
            let x = expression(alloc, setting, state, accessed, x);
            unary(alloc, e.span, *op, x)
        }
        ExprKind::Cast(to, x) => {
            let x = expression(alloc, setting, state, accessed, x);
            cast(alloc, e.span, *to, x)
        }
        ExprKind::Binary(op, x, y) => {
            match expression(alloc, setting, state, accessed, x) {
                Err(error) => Err(error),
                Ok(x) => {
                    let y = expression(alloc, setting, state, x.accessed, y);
                    binary(alloc, e.span, *op, x, y)
                }
            }
        }
        ExprKind::Choose(c, x, y) => {
            match expression(alloc, setting, state, accessed, c) {
                Err(error) => Err(error),
                Ok(c) => {
                    let x = expression(alloc, setting, state, c.accessed, x);
                    match pair(c, x) {
                        Err(error) => Err(error),
                        Ok(both) => {
                            let y = expression(alloc, setting, state, both.second.accessed, y);
                            choose(alloc, e.span, both, y)
                        }
                    }
                }
            }
        }
    }
}
