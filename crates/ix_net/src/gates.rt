ghost use Rattle.std.specs.Prelude.{◌≡◌, MatchOption};
ghost use Rattle.ix_net.specs.Signals.{width_of, number_of, bits_of};
ghost use Rattle.ix_net.specs.Forms.{Fits};
ghost use Rattle.ix_net.specs.Gates.{gate_of};

use crate::netlist::Form;
use crate::tables::Table;

/// The right side of an assignment whose operands are numbers of signals: inputs, then cells, then banks.
#[derive(Clone, Copy, Debug)]
pub enum Gate {
    Hex(u128),
    Copy(usize),
    Add(usize, usize),
    Sub(usize, usize),
    Mul(usize, usize),
    And(usize, usize),
    Or(usize, usize),
    Xor(usize, usize),
    Not(usize),
    Eq(usize, usize),
    Lt(usize, usize),
    /// `width` is that of both operands.
    LtSigned { a: usize, b: usize, width: u8 },
    /// `width` is that of the low operand.
    Join { high: usize, low: usize, width: u8 },
    Range { source: usize, hi: u8, lo: u8 },
    Choose(usize, usize, usize),
}

/// A right side with numbers for names; None where an operand is not declared or the widths do not agree with that of
/// the target.
pub(crate) fn resolve(table: &Table, width: u8, form: &Form) -> Option<Gate>
    ensures { MatchOption result (Fits (width_of table.now) width form.now → ⊥)
        (λ g. Fits (width_of table.now) width form.now × (g ≡ gate_of (number_of table.now) (bits_of table.now) form.now)) }
{
    match form {
        Form::Hex(number) => {
            if number.width == width {
                Some(Gate::Hex(number.raw))
            } else {
                None
            }
        }
        Form::Copy(a) => Some(Gate::Copy(table.of_width(a, width)?)),
        Form::Add(a, b) => {
            let (a, b) = table.pair(a, b, width)?;
            Some(Gate::Add(a, b))
        }
        Form::Sub(a, b) => {
            let (a, b) = table.pair(a, b, width)?;
            Some(Gate::Sub(a, b))
        }
        Form::Mul(a, b) => {
            let (a, b) = table.pair(a, b, width)?;
            Some(Gate::Mul(a, b))
        }
        Form::And(a, b) => {
            let (a, b) = table.pair(a, b, width)?;
            Some(Gate::And(a, b))
        }
        Form::Or(a, b) => {
            let (a, b) = table.pair(a, b, width)?;
            Some(Gate::Or(a, b))
        }
        Form::Xor(a, b) => {
            let (a, b) = table.pair(a, b, width)?;
            Some(Gate::Xor(a, b))
        }
        Form::Not(a) => Some(Gate::Not(table.of_width(a, width)?)),
        Form::Eq(a, b) => {
            let (a, b, _) = table.alike(a, b)?;
            if width == 1 {
                Some(Gate::Eq(a, b))
            } else {
                None
            }
        }
        Form::Lt(a, b) => {
            let (a, b, _) = table.alike(a, b)?;
            if width == 1 {
                Some(Gate::Lt(a, b))
            } else {
                None
            }
        }
        Form::LtSigned(a, b) => {
            let (a, b, of_both) = table.alike(a, b)?;
            if width == 1 {
                Some(Gate::LtSigned {
                    a,
                    b,
                    width: of_both,
                })
            } else {
                None
            }
        }
        Form::Join(a, b) => {
            let (high, of_high) = table.declared(a)?;
            let (low, of_low) = table.declared(b)?;
            if u16::from(of_high) + u16::from(of_low) == u16::from(width) {
                Some(Gate::Join {
                    high,
                    low,
                    width: of_low,
                })
            } else {
                None
            }
        }
        Form::Range { source, hi, lo } => {
            let (place, of_source) = table.declared(source)?;
            if *lo <= *hi && *hi < of_source && hi - lo + 1 == width {
                Some(Gate::Range {
                    source: place,
                    hi: *hi,
                    lo: *lo,
                })
            } else {
                None
            }
        }
        Form::Choose(c, a, b) => {
            let c = table.of_width(c, 1)?;
            let (a, b) = table.pair(a, b, width)?;
            Some(Gate::Choose(c, a, b))
        }
    }
}
