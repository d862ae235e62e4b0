ghost use Rattle.std.specs.Prelude.{◌≡◌, ◌≤◌, [], ◌∷◌, IfOk};
ghost use Rattle.ix_bits.specs.ResultTypes.{common_signed, common_width};
ghost use Rattle.ix_cells.specs.Growth.{Adds};
ghost use Rattle.ix_cells.specs.Operands.{wire_of, two_shown};

use crate::cells::{below, below_signed, equal, turned};
use crate::extending::both_extended;
use crate::{Operand, Wire};
use ix_bits::{BinOp, Memory, Ty, width_of_both};
use ix_net::Net;
use std::alloc::Global;

/// `a == b`.
pub(crate) fn same(alloc: Global, net: &mut Net, a: Operand, b: Operand) -> Result<Wire, Memory>
    requires { common_width a.ty b.ty ≤ 128 }
    ensures { IfOk result (λ r. Adds (wire_of a ∷ wire_of b ∷ []) net.old net.new r 1 (two_shown BinOp.Eq a b 1)) }
{
    let width = width_of_both(a.ty, b.ty);
    let (left, right) = both_extended(alloc, net, a, b, width)?;
    equal(alloc, net, left, right)
}

/// `a != b`.
pub(crate) fn different(
    alloc: Global,
    net: &mut Net,
    a: Operand,
    b: Operand,
) -> Result<Wire, Memory>
    requires { common_width a.ty b.ty ≤ 128 }
    ensures { IfOk result (λ r. Adds (wire_of a ∷ wire_of b ∷ []) net.old net.new r 1 (two_shown BinOp.Ne a b 1)) }
{
    let test = same(alloc, net, a, b)?;
    turned(alloc, net, test)
}

// Whether the common type of two types is signed.
fn is_signed(a: Ty, b: Ty) -> bool
    ensures { result ≡ common_signed a b }
{
    a.signed || b.signed
}

/// `a < b`: as two's complement numbers where the common type is signed.
pub(crate) fn less(alloc: Global, net: &mut Net, a: Operand, b: Operand) -> Result<Wire, Memory>
    requires { common_width a.ty b.ty ≤ 128 }
    ensures { IfOk result (λ r. Adds (wire_of a ∷ wire_of b ∷ []) net.old net.new r 1 (two_shown BinOp.Lt a b 1)) }
{
    let width = width_of_both(a.ty, b.ty);
    let (left, right) = both_extended(alloc, net, a, b, width)?;
    if is_signed(a.ty, b.ty) {
        below_signed(alloc, net, left, right)
    } else {
        below(alloc, net, left, right)
    }
}

/// `a > b`.
pub(crate) fn greater(alloc: Global, net: &mut Net, a: Operand, b: Operand) -> Result<Wire, Memory>
    requires { common_width a.ty b.ty ≤ 128 }
    ensures { IfOk result (λ r. Adds (wire_of a ∷ wire_of b ∷ []) net.old net.new r 1 (two_shown BinOp.Gt a b 1)) }
{
    less(alloc, net, b, a)
}

/// `a <= b`.
pub(crate) fn at_most(alloc: Global, net: &mut Net, a: Operand, b: Operand) -> Result<Wire, Memory>
    requires { common_width a.ty b.ty ≤ 128 }
    ensures { IfOk result (λ r. Adds (wire_of a ∷ wire_of b ∷ []) net.old net.new r 1 (two_shown BinOp.Le a b 1)) }
{
    let test = greater(alloc, net, a, b)?;
    turned(alloc, net, test)
}

/// `a >= b`.
pub(crate) fn at_least(alloc: Global, net: &mut Net, a: Operand, b: Operand) -> Result<Wire, Memory>
    requires { common_width a.ty b.ty ≤ 128 }
    ensures { IfOk result (λ r. Adds (wire_of a ∷ wire_of b ∷ []) net.old net.new r 1 (two_shown BinOp.Ge a b 1)) }
{
    let test = less(alloc, net, a, b)?;
    turned(alloc, net, test)
}
