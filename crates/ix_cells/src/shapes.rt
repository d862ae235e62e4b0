ghost use Rattle.std.specs.Prelude.{◌≡◌, ◌+◌, ◌≤◌, [], ◌∷◌, IfOk};
ghost use Rattle.ix_graph.specs.Graphs.{IsRangeResult};
ghost use Rattle.ix_cells.specs.Growth.{Adds};
ghost use Rattle.ix_cells.specs.Operands.{wire_of, two_shown, one_shown, choice_shown};

use crate::cells::{bits, chosen, joined};
use crate::extending::{both_extended, extended};
use crate::{Operand, Wire};
use ix_bits::{BinOp, Memory, Ty};
use ix_graph::Kind;
use ix_net::Net;
use std::alloc::Global;

/// `a :: b`: the first above the second.
pub(crate) fn concatenated(
    alloc: Global,
    net: &mut Net,
    a: Operand,
    b: Operand,
) -> Result<Wire, Memory>
    requires { a.ty.width + b.ty.width ≤ 128 }
    ensures { IfOk result (λ r. Adds (wire_of a ∷ wire_of b ∷ []) net.old net.new r (a.ty.width + b.ty.width)
        (two_shown BinOp.Concat a b (a.ty.width + b.ty.width))) }
{
    let above = Wire {
        signal: a.signal,
        width: a.ty.width,
    };
    let under = Wire {
        signal: b.signal,
        width: b.ty.width,
    };
    joined(alloc, net, above, under)
}

/// `a[hi:lo]`.
pub(crate) fn ranged(
    alloc: Global,
    net: &mut Net,
    a: Operand,
    hi: u8,
    lo: u8,
    ty: Ty,
) -> Result<Wire, Memory>
    requires { IsRangeResult hi lo a.ty ty }
    ensures { IfOk result (λ r. Adds (wire_of a ∷ []) net.old net.new r ty.width (one_shown (Kind.Range hi lo) a ty)) }
{
    let wire = Wire {
        signal: a.signal,
        width: a.ty.width,
    };
    bits(alloc, net, wire, hi, lo)
}

/// A cast: the low bits where the type is narrower, else zeros or the sign above.
pub(crate) fn cast(alloc: Global, net: &mut Net, a: Operand, ty: Ty) -> Result<Wire, Memory>
    ensures { IfOk result (λ r. Adds (wire_of a ∷ []) net.old net.new r ty.width (one_shown Kind.Cast a ty)) }
{
    if ty.width > a.ty.width {
        return extended(alloc, net, a, ty.width);
    }
    let wire = Wire {
        signal: a.signal,
        width: a.ty.width,
    };
    bits(alloc, net, wire, ty.width - 1, 0)
}

/// The one number where the condition is 1, else the other.
pub(crate) fn choice(
    alloc: Global,
    net: &mut Net,
    condition: Operand,
    a: Operand,
    b: Operand,
    width: u8,
) -> Result<Wire, Memory>
    requires bit { condition.ty.width ≡ 1 }
    requires left { a.ty.width ≤ width }
    requires right { b.ty.width ≤ width }
    requires most { width ≤ 128 }
    ensures { IfOk result (λ r. Adds (wire_of condition ∷ wire_of a ∷ wire_of b ∷ []) net.old net.new r width (choice_shown condition a b width)) }
{
    let (left, right) = both_extended(alloc, net, a, b, width)?;
    let test = Wire {
        signal: condition.signal,
        width: condition.ty.width,
    };
    chosen(alloc, net, test, left, right)
}
