ghost use Rattle.std.specs.Prelude.{◌≡◌, ◌+◌, ◌≤◌, [], ◌∷◌, IfOk, max};
ghost use Rattle.ix_cells.specs.Growth.{Adds};
ghost use Rattle.ix_cells.specs.Operands.{wire_of, two_shown, one_shown};

use crate::cells::{common, difference, differing, either, product, sum, turned};
use crate::extending::{both_extended, extended, zero};
use crate::{Operand, Wire};
use ix_bits::{BinOp, Memory, Ty};
use ix_graph::Kind;
use ix_net::Net;
use std::alloc::Global;

/// `a + b` in a width.
pub(crate) fn added(
    alloc: Global,
    net: &mut Net,
    a: Operand,
    b: Operand,
    width: u8,
) -> Result<Wire, Memory>
    requires left { a.ty.width ≤ width }
    requires right { b.ty.width ≤ width }
    requires most { width ≤ 128 }
    ensures { IfOk result (λ r. Adds (wire_of a ∷ wire_of b ∷ []) net.old net.new r width (two_shown BinOp.Add a b width)) }
{
    let (left, right) = both_extended(alloc, net, a, b, width)?;
    sum(alloc, net, left, right)
}

/// `a - b` in a width.
pub(crate) fn subtracted(
    alloc: Global,
    net: &mut Net,
    a: Operand,
    b: Operand,
    width: u8,
) -> Result<Wire, Memory>
    requires left { a.ty.width ≤ width }
    requires right { b.ty.width ≤ width }
    requires most { width ≤ 128 }
    ensures { IfOk result (λ r. Adds (wire_of a ∷ wire_of b ∷ []) net.old net.new r width (two_shown BinOp.Sub a b width)) }
{
    let (left, right) = both_extended(alloc, net, a, b, width)?;
    difference(alloc, net, left, right)
}

/// `a * b` in a width.
pub(crate) fn multiplied(
    alloc: Global,
    net: &mut Net,
    a: Operand,
    b: Operand,
    width: u8,
) -> Result<Wire, Memory>
    requires left { a.ty.width ≤ width }
    requires right { b.ty.width ≤ width }
    requires most { width ≤ 128 }
    ensures { IfOk result (λ r. Adds (wire_of a ∷ wire_of b ∷ []) net.old net.new r width (two_shown BinOp.Mul a b width)) }
{
    let (left, right) = both_extended(alloc, net, a, b, width)?;
    product(alloc, net, left, right)
}

/// `a & b`.
pub(crate) fn both_bits(
    alloc: Global,
    net: &mut Net,
    a: Operand,
    b: Operand,
    width: u8,
) -> Result<Wire, Memory>
    requires exact { width ≡ max a.ty.width b.ty.width }
    requires most { width ≤ 128 }
    ensures { IfOk result (λ r. Adds (wire_of a ∷ wire_of b ∷ []) net.old net.new r width (two_shown BinOp.And a b width)) }
{
    let (left, right) = both_extended(alloc, net, a, b, width)?;
    common(alloc, net, left, right)
}

/// `a | b`.
pub(crate) fn either_bits(
    alloc: Global,
    net: &mut Net,
    a: Operand,
    b: Operand,
    width: u8,
) -> Result<Wire, Memory>
    requires exact { width ≡ max a.ty.width b.ty.width }
    requires most { width ≤ 128 }
    ensures { IfOk result (λ r. Adds (wire_of a ∷ wire_of b ∷ []) net.old net.new r width (two_shown BinOp.Or a b width)) }
{
    let (left, right) = both_extended(alloc, net, a, b, width)?;
    either(alloc, net, left, right)
}

/// `a ^ b`.
pub(crate) fn differing_bits(
    alloc: Global,
    net: &mut Net,
    a: Operand,
    b: Operand,
    width: u8,
) -> Result<Wire, Memory>
    requires exact { width ≡ max a.ty.width b.ty.width }
    requires most { width ≤ 128 }
    ensures { IfOk result (λ r. Adds (wire_of a ∷ wire_of b ∷ []) net.old net.new r width (two_shown BinOp.Xor a b width)) }
{
    let (left, right) = both_extended(alloc, net, a, b, width)?;
    differing(alloc, net, left, right)
}

/// `~a`.
pub(crate) fn inverted(alloc: Global, net: &mut Net, a: Operand, ty: Ty) -> Result<Wire, Memory>
    requires { ty.width ≡ a.ty.width }
    ensures { IfOk result (λ r. Adds (wire_of a ∷ []) net.old net.new r ty.width (one_shown Kind.Not a ty)) }
{
    turned(
        alloc,
        net,
        Wire {
            signal: a.signal,
            width: a.ty.width,
        },
    )
}

/// `-a`.
pub(crate) fn negated(alloc: Global, net: &mut Net, a: Operand, ty: Ty) -> Result<Wire, Memory>
    requires { a.ty.width ≤ ty.width }
    ensures { IfOk result (λ r. Adds (wire_of a ∷ []) net.old net.new r ty.width (one_shown Kind.Neg a ty)) }
{
    let none = zero(alloc, net, ty.width)?;
    let number = extended(alloc, net, a, ty.width)?;
    difference(alloc, net, none, number)
}
