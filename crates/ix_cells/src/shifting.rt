ghost use Rattle.std.specs.Prelude.{◌≡◌, ◌<◌, ◌≤◌, ◌*◌, ◌/◌, ◌%◌, ◌-◌, ◌+◌, ◌^◌, ◌==◌, [], ◌∷◌, IfOk, false};
ghost use Rattle.ix_net.specs.Forms.{bit_of};
ghost use Rattle.ix_cells.specs.Growth.{Adds};
ghost use Rattle.ix_cells.specs.Moves.{moved};
ghost use Rattle.ix_cells.specs.Operands.{wire_of, two_shown};

use crate::cells::{bits, chosen, equal, joined};
use crate::extending::{extended, zero};
use crate::{Operand, Wire};
use ix_bits::{BinOp, Memory, Ty, least_width};
use ix_net::Net;
use std::alloc::Global;

/// Which way a pattern moves.
#[derive(Clone, Copy, Debug)]
pub(crate) enum Way {
    /// To higher places, with zeros below.
    Up,
    /// To lower places, with the sign above where the number is signed, else with zeros.
    Down { signed: bool },
}

// The pattern moved up by a distance below its width.
fn moved_up(alloc: Global, net: &mut Net, a: Wire, by: u8) -> Result<Wire, Memory>
    requires some { 1 ≤ by }
    requires below { by < a.width }
    requires most { a.width ≤ 128 }
    ensures { IfOk result (λ r. Adds (a ∷ []) net.old net.new r a.width (λ see. moved Way.Up a.width (see a.signal) by)) }
{
    let low = bits(alloc, net, a, a.width - 1 - by, 0)?;
    let none = zero(alloc, net, by)?;
    joined(alloc, net, low, none)
}

// The pattern moved down by a distance below its width.
fn moved_down(alloc: Global, net: &mut Net, a: Wire, signed: bool, by: u8) -> Result<Wire, Memory>
    requires below { by < a.width }
    requires most { a.width ≤ 128 }
    ensures { IfOk result (λ r. Adds (a ∷ []) net.old net.new r a.width (λ see. moved (Way.Down signed) a.width (see a.signal) by)) }
{
    let high = bits(alloc, net, a, a.width - 1, by)?;
    let ty = Ty {
        signed,
        width: high.width,
    };
    let number = Operand {
        ty,
        signal: high.signal,
    };
    extended(alloc, net, number, a.width)
}

// The pattern moved by a distance below its width.
fn moved_by(alloc: Global, net: &mut Net, way: Way, a: Wire, by: u8) -> Result<Wire, Memory>
    requires some { 1 ≤ by }
    requires below { by < a.width }
    requires most { a.width ≤ 128 }
    ensures { IfOk result (λ r. Adds (a ∷ []) net.old net.new r a.width (λ see. moved way a.width (see a.signal) by)) }
{
    match way {
        Way::Up => moved_up(alloc, net, a, by),
        Way::Down { signed } => moved_down(alloc, net, a, signed, by),
    }
}

// What is left of the pattern moved down by its width: the sign, or nothing.
fn moved_down_out(alloc: Global, net: &mut Net, a: Wire, signed: bool) -> Result<Wire, Memory>
    requires some { 1 ≤ a.width }
    requires most { a.width ≤ 128 }
    ensures { IfOk result (λ r. Adds (a ∷ []) net.old net.new r a.width (λ see. moved (Way.Down signed) a.width (see a.signal) a.width)) }
{
    if signed {
        moved_down(alloc, net, a, true, a.width - 1)
    } else {
        zero(alloc, net, a.width)
    }
}

// What is left of the pattern moved by its width.
fn moved_out(alloc: Global, net: &mut Net, way: Way, a: Wire) -> Result<Wire, Memory>
    requires some { 1 ≤ a.width }
    requires most { a.width ≤ 128 }
    ensures { IfOk result (λ r. Adds (a ∷ []) net.old net.new r a.width (λ see. moved way a.width (see a.signal) a.width)) }
{
    match way {
        Way::Up => zero(alloc, net, a.width),
        Way::Down { signed } => moved_down_out(alloc, net, a, signed),
    }
}

// The pattern as it is after one more bit of the distance was looked at.
fn stage(
    alloc: Global,
    net: &mut Net,
    way: Way,
    distance: Wire,
    current: Wire,
    place: u8,
) -> Result<Wire, Memory>
    requires within { place < distance.width }
    requires below { 2 ^ place < current.width }
    requires most { current.width ≤ 128 }
    ensures { IfOk result (λ r. Adds (distance ∷ current ∷ []) net.old net.new r current.width
        (λ see. moved way current.width (see current.signal) (see distance.signal / 2 ^ place % 2 * 2 ^ place))) }
{
    let by = power(place);
    let bit = bits(alloc, net, distance, place, place)?;
    let other = moved_by(alloc, net, way, current, by)?;
    chosen(alloc, net, bit, other, current)
}

// The power of two at a place.
fn power(place: u8) -> u8
    requires { 2 ^ place < 128 }
    ensures value { result ≡ 2 ^ place }
    ensures some { 1 ≤ result }
{
    1 << place
}

// The pattern moved by the low bits of a distance, so many, in as many stages of choice.
fn staged(
    alloc: Global,
    net: &mut Net,
    way: Way,
    a: Wire,
    distance: Wire,
    places: u8,
) -> Result<Wire, Memory>
    requires some { 1 ≤ a.width }
    requires most { a.width ≤ 128 }
    requires within { places ≤ distance.width }
    requires few { 2 ^ places < 2 * a.width }
    ensures { IfOk result (λ r. Adds (a ∷ distance ∷ []) net.old net.new r a.width
        (λ see. moved way a.width (see a.signal) (see distance.signal % 2 ^ places))) }
{
    let mut current = a;
    for place in 0..places {
        current = stage(alloc, net, way, distance, current, place)?;
    }
    Ok(current)
}

// How many bits a distance below a width has.
fn places_of(width: u8) -> u8
    requires { 1 ≤ width }
    ensures reach { width ≤ 2 ^ result }
    ensures few { 2 ^ result < 2 * width }
{
    if width == 1 {
        return 0;
    }
    least_width(u128::from(width - 1))
}

// Whether a distance has no bits but its low ones, so many.
fn is_near(alloc: Global, net: &mut Net, distance: Wire, places: u8) -> Result<Wire, Memory>
    requires within { places < distance.width }
    requires most { distance.width ≤ 128 }
    ensures { IfOk result (λ r. Adds (distance ∷ []) net.old net.new r 1
        (λ see. bit_of (see distance.signal / 2 ^ places % 2 ^ (distance.width - 1 - places + 1) == 0))) }
{
    let high = bits(alloc, net, distance, distance.width - 1, places)?;
    let none = zero(alloc, net, high.width)?;
    equal(alloc, net, high, none)
}

// The pattern moved by a distance, which is not wrapped: past the width nothing is left but the sign.
fn shifted(alloc: Global, net: &mut Net, way: Way, a: Wire, distance: Wire) -> Result<Wire, Memory>
    requires some { 1 ≤ a.width }
    requires most { a.width ≤ 128 }
    requires within { distance.width ≤ 128 }
    ensures { IfOk result (λ r. Adds (a ∷ distance ∷ []) net.old net.new r a.width
        (λ see. moved way a.width (see a.signal) (see distance.signal))) }
{
    let places = places_of(a.width);
    if distance.width <= places {
        return staged(alloc, net, way, a, distance, distance.width);
    }
    let current = staged(alloc, net, way, a, distance, places)?;
    let near = is_near(alloc, net, distance, places)?;
    let out = moved_out(alloc, net, way, a)?;
    chosen(alloc, net, near, current, out)
}

/// `a << b`, in the type of a.
pub(crate) fn shifted_up(
    alloc: Global,
    net: &mut Net,
    a: Operand,
    b: Operand,
) -> Result<Wire, Memory>
    requires { b.ty.signed ≡ false }
    ensures { IfOk result (λ r. Adds (wire_of a ∷ wire_of b ∷ []) net.old net.new r a.ty.width (two_shown BinOp.Shl a b a.ty.width)) }
{
    let wire = Wire {
        signal: a.signal,
        width: a.ty.width,
    };
    let distance = Wire {
        signal: b.signal,
        width: b.ty.width,
    };
    shifted(alloc, net, Way::Up, wire, distance)
}

/// `a >> b`.
pub(crate) fn shifted_down(
    alloc: Global,
    net: &mut Net,
    a: Operand,
    b: Operand,
) -> Result<Wire, Memory>
    requires { b.ty.signed ≡ false }
    ensures { IfOk result (λ r. Adds (wire_of a ∷ wire_of b ∷ []) net.old net.new r a.ty.width (two_shown BinOp.Shr a b a.ty.width)) }
{
    let wire = Wire {
        signal: a.signal,
        width: a.ty.width,
    };
    let distance = Wire {
        signal: b.signal,
        width: b.ty.width,
    };
    let way = Way::Down {
        signed: a.ty.signed,
    };
    shifted(alloc, net, way, wire, distance)
}
