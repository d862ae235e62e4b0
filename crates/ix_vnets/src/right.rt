ghost use Rattle.std.specs.Prelude.{◌≡◌, IfOk, MatchOption};
ghost use Rattle.ix_vnets.specs.Signs.{with_sign as specified_with_sign};
ghost use Rattle.ix_vnets.specs.Forms.{IsFormOf, IsNoForm};

use crate::number::literal_in;
use ix_bits::{Memory, Name};
use ix_net::Form;
use ix_verilog::{RightSide, Sign, place_in};
use std::alloc::Global;

pub(crate) fn copy(alloc: Global, name: &Name) -> Result<Name, Memory>
    ensures { IfOk result (λ copy. copy ≡ name.now) }
{
    Name::from_text(alloc, name.as_str())
}

/// A number of a width, as `8'h2a`; None where it does not fit it.
fn literal(word: &[u8]) -> Option<Form>
    ensures { MatchOption result (IsNoForm (RightSide.Literal word.now)) (IsFormOf (RightSide.Literal word.now)) }
{
    match literal_in(word) {
        Some(number) => Some(Form::Hex(number)),
        None => None,
    }
}

/// The operation of a sign on two operands.
fn with_sign(sign: Sign, a: Name, b: Name) -> Form
    ensures { result ≡ specified_with_sign sign a b }
{
    match sign {
        Sign::Plus => Form::Add(a, b),
        Sign::Minus => Form::Sub(a, b),
        Sign::Times => Form::Mul(a, b),
        Sign::And => Form::And(a, b),
        Sign::Or => Form::Or(a, b),
        Sign::Xor => Form::Xor(a, b),
        Sign::Equal => Form::Eq(a, b),
        Sign::Less => Form::Lt(a, b),
    }
}

/// `a`.
fn copied(alloc: Global, a: &Name) -> Result<Option<Form>, Memory>
    ensures { IfOk result (λ o. MatchOption o (IsNoForm (RightSide.Copy a.now)) (IsFormOf (RightSide.Copy a.now))) }
{
    let name = copy(alloc, a)?;
    Ok(Some(Form::Copy(name)))
}

/// `a + b` and the like.
fn both(alloc: Global, sign: Sign, a: &Name, b: &Name) -> Result<Option<Form>, Memory>
    ensures { IfOk result (λ o. MatchOption o (IsNoForm (RightSide.Both sign a.now b.now)) (IsFormOf (RightSide.Both sign a.now b.now))) }
{
    let first = copy(alloc, a)?;
    let second = copy(alloc, b)?;
    Ok(Some(with_sign(sign, first, second)))
}

/// `~a`.
fn turned(alloc: Global, a: &Name) -> Result<Option<Form>, Memory>
    ensures { IfOk result (λ o. MatchOption o (IsNoForm (RightSide.Turned a.now)) (IsFormOf (RightSide.Turned a.now))) }
{
    let name = copy(alloc, a)?;
    Ok(Some(Form::Not(name)))
}

/// `$signed(a) < $signed(b)`.
fn signed(alloc: Global, a: &Name, b: &Name) -> Result<Option<Form>, Memory>
    ensures { IfOk result (λ o. MatchOption o (IsNoForm (RightSide.Signed a.now b.now)) (IsFormOf (RightSide.Signed a.now b.now))) }
{
    let first = copy(alloc, a)?;
    let second = copy(alloc, b)?;
    Ok(Some(Form::LtSigned(first, second)))
}

/// `{a, b}`.
fn joined(alloc: Global, a: &Name, b: &Name) -> Result<Option<Form>, Memory>
    ensures { IfOk result (λ o. MatchOption o (IsNoForm (RightSide.Joined a.now b.now)) (IsFormOf (RightSide.Joined a.now b.now))) }
{
    let first = copy(alloc, a)?;
    let second = copy(alloc, b)?;
    Ok(Some(Form::Join(first, second)))
}

/// `a[h:l]`; None where it goes beyond bit 127.
fn range(alloc: Global, a: &Name, high: &[u8], low: &[u8]) -> Result<Option<Form>, Memory>
    ensures { IfOk result (λ o. MatchOption o (IsNoForm (RightSide.Range a.now high.now low.now)) (IsFormOf (RightSide.Range a.now high.now low.now))) }
{
    let Some(hi) = place_in(high) else {
        return Ok(None);
    };
    let Some(lo) = place_in(low) else {
        return Ok(None);
    };
    let source = copy(alloc, a)?;
    Ok(Some(Form::Range { source, hi, lo }))
}

/// `c ? a : b`.
fn choice(alloc: Global, c: &Name, a: &Name, b: &Name) -> Result<Option<Form>, Memory>
    ensures { IfOk result (λ o. MatchOption o (IsNoForm (RightSide.Choice c.now a.now b.now)) (IsFormOf (RightSide.Choice c.now a.now b.now))) }
{
    let condition = copy(alloc, c)?;
    let first = copy(alloc, a)?;
    let second = copy(alloc, b)?;
    Ok(Some(Form::Choose(condition, first, second)))
}

/// The operation that a right side is; None where a number does not fit its width, the width is not
/// 1 to 128, or a range goes beyond bit 127.
pub fn form_of(alloc: Global, right: &RightSide) -> Result<Option<Form>, Memory>
    ensures { IfOk result (λ o. MatchOption o (IsNoForm right.now) (IsFormOf right.now)) }
{
    match right {
        RightSide::Literal(word) => Ok(literal(word.as_slice())),
        RightSide::Copy(a) => copied(alloc, a),
        RightSide::Both(sign, a, b) => both(alloc, *sign, a, b),
        RightSide::Turned(a) => turned(alloc, a),
        RightSide::Signed(a, b) => signed(alloc, a, b),
        RightSide::Joined(a, b) => joined(alloc, a, b),
        RightSide::Range { source, high, low } => {
            range(alloc, source, high.as_slice(), low.as_slice())
        }
        RightSide::Choice(c, a, b) => choice(alloc, c, a, b),
    }
}
