ghost use Rattle.std.specs.Prelude.{◌≡◌, ◌+◌, ◌*◌, ◌/◌, ◌-◌, ◌%◌, ◌^◌, ◌<◌, ◌≤◌, ◌==◌, if◌then◌else◌, [], ◌∷◌, IfOk, bit_and, bit_or, bit_xor, nat_lt};
ghost use Rattle.ix_net.specs.Forms.{bit_of, signed_lt};
ghost use Rattle.ix_cells.specs.Growth.{IsPushed, Adds};

use crate::naming::name;
use crate::{Signal, Wire};
use ix_bits::{Bits, Memory};
use ix_net::{Cell, Form, Net};
use std::alloc::Global;

// Puts a cell with this right side behind the others.
fn push(alloc: Global, net: &mut Net, width: u8, form: Form) -> Result<Wire, Memory>
    ensures { IfOk result (λ wire. IsPushed net.old net.new wire width form) }
{
    let signal = Signal::Node(net.cells.len());
    let target = name(alloc, signal)?;
    net.cells.push(Cell {
        target,
        width,
        form,
    })?;
    Ok(Wire { signal, width })
}

/// A constant.
pub fn constant(alloc: Global, net: &mut Net, bits: Bits) -> Result<Wire, Memory>
    ensures { IfOk result (λ r. Adds [] net.old net.new r bits.width (λ see. bits.raw)) }
{
    push(alloc, net, bits.width, Form::Hex(bits))
}

/// The sum modulo a power of two.
pub(crate) fn sum(alloc: Global, net: &mut Net, a: Wire, b: Wire) -> Result<Wire, Memory>
    requires { b.width ≡ a.width }
    ensures { IfOk result (λ r. Adds (a ∷ b ∷ []) net.old net.new r a.width
        (λ see. (see a.signal + see b.signal) % 2 ^ a.width)) }
{
    let left = name(alloc, a.signal)?;
    let right = name(alloc, b.signal)?;
    push(alloc, net, a.width, Form::Add(left, right))
}

/// The difference modulo a power of two.
pub(crate) fn difference(alloc: Global, net: &mut Net, a: Wire, b: Wire) -> Result<Wire, Memory>
    requires { b.width ≡ a.width }
    ensures { IfOk result (λ r. Adds (a ∷ b ∷ []) net.old net.new r a.width
        (λ see. (see a.signal + (2 ^ a.width - see b.signal)) % 2 ^ a.width)) }
{
    let left = name(alloc, a.signal)?;
    let right = name(alloc, b.signal)?;
    push(alloc, net, a.width, Form::Sub(left, right))
}

/// The product modulo a power of two.
pub(crate) fn product(alloc: Global, net: &mut Net, a: Wire, b: Wire) -> Result<Wire, Memory>
    requires { b.width ≡ a.width }
    ensures { IfOk result (λ r. Adds (a ∷ b ∷ []) net.old net.new r a.width
        (λ see. (see a.signal * see b.signal) % 2 ^ a.width)) }
{
    let left = name(alloc, a.signal)?;
    let right = name(alloc, b.signal)?;
    push(alloc, net, a.width, Form::Mul(left, right))
}

/// The bits that both have.
pub(crate) fn common(alloc: Global, net: &mut Net, a: Wire, b: Wire) -> Result<Wire, Memory>
    requires { b.width ≡ a.width }
    ensures { IfOk result (λ r. Adds (a ∷ b ∷ []) net.old net.new r a.width
        (λ see. bit_and (see a.signal) (see b.signal))) }
{
    let left = name(alloc, a.signal)?;
    let right = name(alloc, b.signal)?;
    push(alloc, net, a.width, Form::And(left, right))
}

/// The bits that one or the other has.
pub(crate) fn either(alloc: Global, net: &mut Net, a: Wire, b: Wire) -> Result<Wire, Memory>
    requires { b.width ≡ a.width }
    ensures { IfOk result (λ r. Adds (a ∷ b ∷ []) net.old net.new r a.width
        (λ see. bit_or (see a.signal) (see b.signal))) }
{
    let left = name(alloc, a.signal)?;
    let right = name(alloc, b.signal)?;
    push(alloc, net, a.width, Form::Or(left, right))
}

/// The bits that differ.
pub(crate) fn differing(alloc: Global, net: &mut Net, a: Wire, b: Wire) -> Result<Wire, Memory>
    requires { b.width ≡ a.width }
    ensures { IfOk result (λ r. Adds (a ∷ b ∷ []) net.old net.new r a.width
        (λ see. bit_xor (see a.signal) (see b.signal))) }
{
    let left = name(alloc, a.signal)?;
    let right = name(alloc, b.signal)?;
    push(alloc, net, a.width, Form::Xor(left, right))
}

/// All bits turned.
pub(crate) fn turned(alloc: Global, net: &mut Net, a: Wire) -> Result<Wire, Memory>
    ensures { IfOk result (λ r. Adds (a ∷ []) net.old net.new r a.width (λ see. 2 ^ a.width - 1 - see a.signal)) }
{
    let source = name(alloc, a.signal)?;
    push(alloc, net, a.width, Form::Not(source))
}

/// Whether both are the same.
pub(crate) fn equal(alloc: Global, net: &mut Net, a: Wire, b: Wire) -> Result<Wire, Memory>
    requires { b.width ≡ a.width }
    ensures { IfOk result (λ r. Adds (a ∷ b ∷ []) net.old net.new r 1
        (λ see. bit_of (see a.signal == see b.signal))) }
{
    let left = name(alloc, a.signal)?;
    let right = name(alloc, b.signal)?;
    push(alloc, net, 1, Form::Eq(left, right))
}

/// Whether the first is below the second.
pub(crate) fn below(alloc: Global, net: &mut Net, a: Wire, b: Wire) -> Result<Wire, Memory>
    requires { b.width ≡ a.width }
    ensures { IfOk result (λ r. Adds (a ∷ b ∷ []) net.old net.new r 1
        (λ see. bit_of (nat_lt (see a.signal) (see b.signal)))) }
{
    let left = name(alloc, a.signal)?;
    let right = name(alloc, b.signal)?;
    push(alloc, net, 1, Form::Lt(left, right))
}

/// Whether the first is below the second, as two's complement numbers.
pub(crate) fn below_signed(alloc: Global, net: &mut Net, a: Wire, b: Wire) -> Result<Wire, Memory>
    requires { b.width ≡ a.width }
    ensures { IfOk result (λ r. Adds (a ∷ b ∷ []) net.old net.new r 1
        (λ see. bit_of (signed_lt a.width (see a.signal) (see b.signal)))) }
{
    let left = name(alloc, a.signal)?;
    let right = name(alloc, b.signal)?;
    push(alloc, net, 1, Form::LtSigned(left, right))
}

/// The first above the second.
pub(crate) fn joined(alloc: Global, net: &mut Net, a: Wire, b: Wire) -> Result<Wire, Memory>
    requires { a.width + b.width ≤ 128 }
    ensures { IfOk result (λ r. Adds (a ∷ b ∷ []) net.old net.new r (a.width + b.width)
        (λ see. see a.signal * 2 ^ b.width + see b.signal)) }
{
    let left = name(alloc, a.signal)?;
    let right = name(alloc, b.signal)?;
    push(alloc, net, a.width + b.width, Form::Join(left, right))
}

/// Bits `hi` down to `lo`.
pub(crate) fn bits(alloc: Global, net: &mut Net, a: Wire, hi: u8, lo: u8) -> Result<Wire, Memory>
    requires order { lo ≤ hi }
    requires within { hi < a.width }
    ensures { IfOk result (λ r. Adds (a ∷ []) net.old net.new r (hi - lo + 1)
        (λ see. see a.signal / 2 ^ lo % 2 ^ (hi - lo + 1))) }
{
    let source = name(alloc, a.signal)?;
    push(alloc, net, hi - lo + 1, Form::Range { source, hi, lo })
}

/// The one where the test is 1, else the other.
pub(crate) fn chosen(
    alloc: Global,
    net: &mut Net,
    test: Wire,
    a: Wire,
    b: Wire,
) -> Result<Wire, Memory>
    requires bit { test.width ≡ 1 }
    requires alike { b.width ≡ a.width }
    ensures { IfOk result (λ r. Adds (test ∷ a ∷ b ∷ []) net.old net.new r a.width
        (λ see. if see test.signal == 0 then see b.signal else see a.signal)) }
{
    let condition = name(alloc, test.signal)?;
    let left = name(alloc, a.signal)?;
    let right = name(alloc, b.signal)?;
    push(alloc, net, a.width, Form::Choose(condition, left, right))
}
