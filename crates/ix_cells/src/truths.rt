ghost use Rattle.std.specs.Prelude.{◌≡◌, [], ◌∷◌, IfOk, not};
ghost use Rattle.ix_bits.specs.Operators.{is_true};
ghost use Rattle.ix_net.specs.Forms.{bit_of};
ghost use Rattle.ix_cells.specs.Growth.{Adds};
ghost use Rattle.ix_cells.specs.Operands.{wire_of, shown, two_shown, one_shown};

use crate::cells::{common, either, equal, turned};
use crate::extending::zero;
use crate::{Operand, Wire};
use ix_bits::{BinOp, Memory, Ty};
use ix_graph::Kind;
use ix_net::Net;
use std::alloc::Global;

// Whether the number is 0.
fn is_zero(alloc: Global, net: &mut Net, a: Operand) -> Result<Wire, Memory>
    ensures { IfOk result (λ r. Adds (wire_of a ∷ []) net.old net.new r 1 (λ see. bit_of (not (is_true (shown a see))))) }
{
    let wire = Wire {
        signal: a.signal,
        width: a.ty.width,
    };
    if wire.width == 1 {
        return turned(alloc, net, wire);
    }
    let none = zero(alloc, net, wire.width)?;
    equal(alloc, net, wire, none)
}

// Whether the number is not 0.
fn is_some(alloc: Global, net: &mut Net, a: Operand) -> Result<Wire, Memory>
    ensures { IfOk result (λ r. Adds (wire_of a ∷ []) net.old net.new r 1 (λ see. bit_of (is_true (shown a see)))) }
{
    let wire = Wire {
        signal: a.signal,
        width: a.ty.width,
    };
    if wire.width == 1 {
        return Ok(wire);
    }
    let test = is_zero(alloc, net, a)?;
    turned(alloc, net, test)
}

/// `!a`.
pub(crate) fn none_true(alloc: Global, net: &mut Net, a: Operand, ty: Ty) -> Result<Wire, Memory>
    requires { ty.width ≡ 1 }
    ensures { IfOk result (λ r. Adds (wire_of a ∷ []) net.old net.new r ty.width (one_shown Kind.Lnot a ty)) }
{
    is_zero(alloc, net, a)
}

/// `a && b`.
pub(crate) fn both_true(
    alloc: Global,
    net: &mut Net,
    a: Operand,
    b: Operand,
) -> Result<Wire, Memory>
    ensures { IfOk result (λ r. Adds (wire_of a ∷ wire_of b ∷ []) net.old net.new r 1 (two_shown BinOp.Land a b 1)) }
{
    let left = is_some(alloc, net, a)?;
    let right = is_some(alloc, net, b)?;
    common(alloc, net, left, right)
}

/// `a || b`.
pub(crate) fn one_true(alloc: Global, net: &mut Net, a: Operand, b: Operand) -> Result<Wire, Memory>
    ensures { IfOk result (λ r. Adds (wire_of a ∷ wire_of b ∷ []) net.old net.new r 1 (two_shown BinOp.Lor a b 1)) }
{
    let left = is_some(alloc, net, a)?;
    let right = is_some(alloc, net, b)?;
    either(alloc, net, left, right)
}
