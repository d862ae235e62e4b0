ghost use Rattle.std.specs.Prelude.{◌≡◌, [], ◌∷◌, IfOk, Some, None, map, length};
ghost use Rattle.ix_bits.specs.ResultTypes.{IsBinary, binary_width};
ghost use Rattle.ix_graph.specs.Graphs.{IsTyped, arg_type};
ghost use Rattle.ix_graph.specs.Roles.{role_of};
ghost use Rattle.ix_mean.specs.GraphValues.{kind_value};
ghost use Rattle.ix_mean.specs.Terms.{binary_of};
ghost use Rattle.ix_cells.specs.Growth.{Adds};
ghost use Rattle.ix_cells.specs.Operands.{wire_of, two_shown};

use crate::arithmetic::{
    added, both_bits, differing_bits, either_bits, inverted, multiplied, negated, subtracted,
};
use crate::comparing::{at_least, at_most, different, greater, less, same};
use crate::lookups::entry_of;
use crate::shapes::{cast, choice, concatenated, ranged};
use crate::shifting::{shifted_down, shifted_up};
use crate::truths::{both_true, none_true, one_true};
use crate::{Operand, Wire};
use ix_bits::{BinOp, Memory};
use ix_graph::{Graph, Kind, Op, Role};
use ix_net::Net;
use std::alloc::Global;

// The operator on two numbers that a kind is.
fn operator(kind: Kind) -> Option<BinOp>
    ensures { result ≡ binary_of kind }
{
    match kind {
        Kind::Add => Some(BinOp::Add),
        Kind::Sub => Some(BinOp::Sub),
        Kind::Mul => Some(BinOp::Mul),
        Kind::And => Some(BinOp::And),
        Kind::Or => Some(BinOp::Or),
        Kind::Xor => Some(BinOp::Xor),
        Kind::Shl => Some(BinOp::Shl),
        Kind::Shr => Some(BinOp::Shr),
        Kind::Eq => Some(BinOp::Eq),
        Kind::Ne => Some(BinOp::Ne),
        Kind::Lt => Some(BinOp::Lt),
        Kind::Le => Some(BinOp::Le),
        Kind::Gt => Some(BinOp::Gt),
        Kind::Ge => Some(BinOp::Ge),
        Kind::Land => Some(BinOp::Land),
        Kind::Lor => Some(BinOp::Lor),
        Kind::Concat => Some(BinOp::Concat),
        _ => None,
    }
}

// The cells of `a op b`, with a result of a width.
fn two_operands(
    alloc: Global,
    net: &mut Net,
    op: BinOp,
    a: Operand,
    b: Operand,
    width: u8,
) -> Result<Wire, Memory>
    requires exists { IsBinary op a.ty b.ty }
    requires exact { width ≡ binary_width op a.ty b.ty }
    ensures { IfOk result (λ r. Adds (wire_of a ∷ wire_of b ∷ []) net.old net.new r width (two_shown op a b width)) }
{
    match op {
        BinOp::Add => added(alloc, net, a, b, width),
        BinOp::Sub => subtracted(alloc, net, a, b, width),
        BinOp::Mul => multiplied(alloc, net, a, b, width),
        BinOp::And => both_bits(alloc, net, a, b, width),
        BinOp::Or => either_bits(alloc, net, a, b, width),
        BinOp::Xor => differing_bits(alloc, net, a, b, width),
        BinOp::Shl => shifted_up(alloc, net, a, b),
        BinOp::Shr => shifted_down(alloc, net, a, b),
        BinOp::Eq => same(alloc, net, a, b),
        BinOp::Ne => different(alloc, net, a, b),
        BinOp::Lt => less(alloc, net, a, b),
        BinOp::Le => at_most(alloc, net, a, b),
        BinOp::Gt => greater(alloc, net, a, b),
        BinOp::Ge => at_least(alloc, net, a, b),
        BinOp::Land => both_true(alloc, net, a, b),
        BinOp::Lor => one_true(alloc, net, a, b),
        BinOp::Concat => concatenated(alloc, net, a, b),
    }
}

fn one(operands: &[Operand]) -> Operand
    requires { length operands.now ≡ 1 }
    ensures { operands.now ≡ result ∷ [] }
{
    operands[0]
}

fn two(operands: &[Operand]) -> (Operand, Operand)
    requires { length operands.now ≡ 2 }
    ensures { operands.now ≡ result.0 ∷ result.1 ∷ [] }
{
    (operands[0], operands[1])
}

fn three(operands: &[Operand]) -> (Operand, Operand, Operand)
    requires { length operands.now ≡ 3 }
    ensures { operands.now ≡ result.0 ∷ result.1 ∷ result.2 ∷ [] }
{
    (operands[0], operands[1], operands[2])
}

// The cells of an operation that is no operator on two numbers.
fn other_operands(
    alloc: Global,
    net: &mut Net,
    graph: &Graph,
    op: &Op,
    operands: &[Operand],
) -> Result<Wire, Memory>
    requires role { role_of op.now.kind ≡ Role.Compute }
    requires other { binary_of op.now.kind ≡ None }
    requires typed { IsTyped graph.now op.now.kind op.now.args op.now.ty }
    requires types { map (λ o. Some o.ty) operands.now ≡ map (arg_type graph.now.ops) op.now.args }
    ensures { IfOk result (λ r. Adds (map wire_of operands.now) net.old net.new r op.now.ty.width
        (λ see. kind_value graph.now.tables op.now.kind (map (arg_type graph.now.ops) op.now.args) (map (λ o. see o.signal) operands.now) op.now.ty)) }
{
    match op.kind {
        Kind::Not => inverted(alloc, net, one(operands), op.ty),
        Kind::Neg => negated(alloc, net, one(operands), op.ty),
        Kind::Lnot => none_true(alloc, net, one(operands), op.ty),
        Kind::Range { hi, lo } => ranged(alloc, net, one(operands), hi, lo, op.ty),
        Kind::Cast => cast(alloc, net, one(operands), op.ty),
        Kind::Mux => {
            let (condition, a, b) = three(operands);
            choice(alloc, net, condition, a, b, op.ty.width)
        }
        Kind::Rom(table) => entry_of(alloc, net, graph, table, one(operands), op.ty),
        _ => unreachable!(),
    }
}

/// The cells of an operation that makes its result of its arguments, on operands of the arguments' types: the wire shows the
/// result's pattern, of the width of the operation's type, in bits. Want of memory is its one error.
pub fn compute(
    alloc: Global,
    net: &mut Net,
    graph: &Graph,
    op: &Op,
    operands: &[Operand],
) -> Result<Wire, Memory>
    requires role { role_of op.now.kind ≡ Role.Compute }
    requires typed { IsTyped graph.now op.now.kind op.now.args op.now.ty }
    requires types { map (λ o. Some o.ty) operands.now ≡ map (arg_type graph.now.ops) op.now.args }
    ensures { IfOk result (λ r. Adds (map wire_of operands.now) net.old net.new r op.now.ty.width
        (λ see. kind_value graph.now.tables op.now.kind (map (arg_type graph.now.ops) op.now.args) (map (λ o. see o.signal) operands.now) op.now.ty)) }
{
    match operator(op.kind) {
        Some(operation) => {
            let (a, b) = two(operands);
            two_operands(alloc, net, operation, a, b, op.ty.width)
        }
        None => other_operands(alloc, net, graph, op, operands),
    }
}
