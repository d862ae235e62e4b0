ghost use Rattle.std.specs.Prelude.{◌≡◌, ◌↔◌, IsTrue, Some};
ghost use Rattle.ix_net.specs.Forms.{Fits, ShareWidth};
ghost use Rattle.ix_vnets.specs.WidthTables.{found};

use crate::table::width_of;
use ix_bits::Name;
use ix_net::Form;
use std::collections::BTreeMap;

/// Whether a name has a width.
pub fn has(widths: &BTreeMap<&str, u8>, name: &Name, width: u8) -> bool
    ensures { IsTrue result ↔ (found widths.now name.now ≡ Some width) }
{
    match width_of(widths, name) {
        Some(found) => found == width,
        None => false,
    }
}

/// Whether two names have a width.
fn have(widths: &BTreeMap<&str, u8>, a: &Name, b: &Name, width: u8) -> bool
    ensures { IsTrue result ↔ ((found widths.now a.now ≡ Some width) × (found widths.now b.now ≡ Some width)) }
{
    if !has(widths, a, width) {
        return false;
    }
    has(widths, b, width)
}

/// Whether two names have one width.
fn alike(widths: &BTreeMap<&str, u8>, a: &Name, b: &Name) -> bool
    ensures { IsTrue result ↔ ShareWidth (found widths.now a.now) (found widths.now b.now) }
{
    match width_of(widths, a) {
        Some(width) => has(widths, b, width),
        None => false,
    }
}

/// Whether two names of one width are compared, with one bit as the result.
fn compared(widths: &BTreeMap<&str, u8>, a: &Name, b: &Name, width: u8) -> bool
    ensures { IsTrue result ↔ ((width ≡ 1) × ShareWidth (found widths.now a.now) (found widths.now b.now)) }
{
    if width != 1 {
        return false;
    }
    alike(widths, a, b)
}

/// Whether the widths of two names have this sum.
fn joined(widths: &BTreeMap<&str, u8>, a: &Name, b: &Name, width: u8) -> bool
    ensures { IsTrue result ↔ Fits (found widths.now) width (Form.Join a.now b.now) }
{
    let Some(high) = width_of(widths, a) else {
        return false;
    };
    let Some(low) = width_of(widths, b) else {
        return false;
    };
    u16::from(high) + u16::from(low) == u16::from(width)
}

/// Whether a name has the bits from `hi` down to `lo`, so many.
fn ranged(widths: &BTreeMap<&str, u8>, source: &Name, hi: u8, lo: u8, width: u8) -> bool
    ensures { IsTrue result ↔ Fits (found widths.now) width (Form.Range source.now hi lo) }
{
    let Some(of_source) = width_of(widths, source) else {
        return false;
    };
    lo <= hi && hi < of_source && hi - lo + 1 == width
}

/// Whether the first name has one bit, and the others this width.
fn chosen(widths: &BTreeMap<&str, u8>, c: &Name, a: &Name, b: &Name, width: u8) -> bool
    ensures { IsTrue result ↔ Fits (found widths.now) width (Form.Choose c.now a.now b.now) }
{
    if !has(widths, c, 1) {
        return false;
    }
    have(widths, a, b, width)
}

/// Whether the widths of a right side agree with that of its target.
pub fn fits(widths: &BTreeMap<&str, u8>, width: u8, form: &Form) -> bool
    ensures { IsTrue result ↔ Fits (found widths.now) width form.now }
{
    match form {
        Form::Hex(number) => number.width == width,
        Form::Copy(a) => has(widths, a, width),
        Form::Add(a, b) => have(widths, a, b, width),
        Form::Sub(a, b) => have(widths, a, b, width),
        Form::Mul(a, b) => have(widths, a, b, width),
        Form::And(a, b) => have(widths, a, b, width),
        Form::Or(a, b) => have(widths, a, b, width),
        Form::Xor(a, b) => have(widths, a, b, width),
        Form::Not(a) => has(widths, a, width),
        Form::Eq(a, b) => compared(widths, a, b, width),
        Form::Lt(a, b) => compared(widths, a, b, width),
        Form::LtSigned(a, b) => compared(widths, a, b, width),
        Form::Join(a, b) => joined(widths, a, b, width),
        Form::Range { source, hi, lo } => ranged(widths, source, *hi, *lo, width),
        Form::Choose(c, a, b) => chosen(widths, c, a, b, width),
    }
}
