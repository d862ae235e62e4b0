ghost use Rattle.std.specs.Prelude.{◌≡◌, ◌<◌, ◌≤◌, ◌-◌, ◌^◌, [], ◌∷◌, IfOk, true, false};
ghost use Rattle.ix_bits.specs.Types.{number_of};
ghost use Rattle.ix_bits.specs.Operators.{pattern_of};
ghost use Rattle.ix_cells.specs.Growth.{Adds};
ghost use Rattle.ix_cells.specs.Operands.{wire_of, shown};
ghost use Rattle.ix_cells.specs.Pairs.{AddsPair};

use crate::cells::{bits, chosen, constant, joined};
use crate::{Operand, Wire};
use ix_bits::{Bits, Memory};
use ix_net::Net;
use std::alloc::Global;

// The ones of a width.
fn ones(width: u8) -> Bits
    requires some { 1 ≤ width }
    requires most { width ≤ 128 }
    ensures width { result.width ≡ width }
    ensures value { result.raw ≡ 2 ^ width - 1 }
{
    Bits {
        raw: u128::MAX >> (128 - width),
        width,
    }
}

/// A constant 0.
pub(crate) fn zero(alloc: Global, net: &mut Net, width: u8) -> Result<Wire, Memory>
    requires some { 1 ≤ width }
    requires most { width ≤ 128 }
    ensures { IfOk result (λ r. Adds [] net.old net.new r width (λ see. 0)) }
{
    constant(alloc, net, Bits { raw: 0, width })
}

// The pattern with zeros above it.
fn extended_unsigned(alloc: Global, net: &mut Net, a: Wire, width: u8) -> Result<Wire, Memory>
    requires wider { a.width < width }
    requires most { width ≤ 128 }
    ensures { IfOk result (λ r. Adds (a ∷ []) net.old net.new r width
        (λ see. pattern_of width (number_of false a.width (see a.signal)))) }
{
    let above = zero(alloc, net, width - a.width)?;
    joined(alloc, net, above, a)
}

// The pattern with its sign's bit above it.
fn extended_signed(alloc: Global, net: &mut Net, a: Wire, width: u8) -> Result<Wire, Memory>
    requires some { 1 ≤ a.width }
    requires wider { a.width < width }
    requires most { width ≤ 128 }
    ensures { IfOk result (λ r. Adds (a ∷ []) net.old net.new r width
        (λ see. pattern_of width (number_of true a.width (see a.signal)))) }
{
    let sign = bits(alloc, net, a, a.width - 1, a.width - 1)?;
    let high = ones(width - a.width);
    let negative = constant(alloc, net, high)?;
    let positive = zero(alloc, net, width - a.width)?;
    let above = chosen(alloc, net, sign, negative, positive)?;
    joined(alloc, net, above, a)
}

/// The pattern of the number in a width that is no smaller.
pub(crate) fn extended(alloc: Global, net: &mut Net, a: Operand, width: u8) -> Result<Wire, Memory>
    requires wider { a.ty.width ≤ width }
    requires most { width ≤ 128 }
    ensures { IfOk result (λ r. Adds (wire_of a ∷ []) net.old net.new r width
        (λ see. pattern_of width (shown a see))) }
{
    let wire = Wire {
        signal: a.signal,
        width: a.ty.width,
    };
    if wire.width == width {
        return Ok(wire);
    }
    if a.ty.signed {
        extended_signed(alloc, net, wire, width)
    } else {
        extended_unsigned(alloc, net, wire, width)
    }
}

/// The patterns of two numbers in a width that is smaller than neither.
pub(crate) fn both_extended(
    alloc: Global,
    net: &mut Net,
    a: Operand,
    b: Operand,
    width: u8,
) -> Result<(Wire, Wire), Memory>
    requires left { a.ty.width ≤ width }
    requires right { b.ty.width ≤ width }
    requires most { width ≤ 128 }
    ensures { IfOk result (λ r. AddsPair (wire_of a ∷ wire_of b ∷ []) net.old net.new r.0 r.1 width
        (λ see. pattern_of width (shown a see)) (λ see. pattern_of width (shown b see))) }
{
    let left = extended(alloc, net, a, width)?;
    let right = extended(alloc, net, b, width)?;
    Ok((left, right))
}
