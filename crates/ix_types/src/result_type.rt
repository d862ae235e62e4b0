ghost use Rattle.std.specs.Prelude.{◌≡◌, ◌+◌, ◌<◌, ◌≤◌, ◌↔◌, IsTrue, IfOk, IfErr, MatchResult};
ghost use Rattle.ix_bits.specs.ResultTypes.{Embeds, common_signed};
ghost use Rattle.ix_types.specs.Results.{IsBinaryType, IsBinaryRefusal, IsUnaryType, IsUnaryRefusal, IsCommon, IsCommonRefusal, IsSized, IsTooWide};

use ix_bits::{BinOp, Ty, UnOp, width_of_both};

/// Why an operation has no result type.
#[derive(Clone, Copy, Debug, PartialEq, Eq)]
pub enum TypeErr {
    /// The result, or the common type of two numbers compared, would be wider than 128 bits.
    TooWide,
    /// Bits of a signed and an unsigned number would be joined, or a shift would go by a signed number.
    Mixed,
}

/// The type of `a op b`. Sums, differences and products are as wide as their exact numbers need.
pub fn type_of_binary(op: BinOp, a: Ty, b: Ty) -> Result<Ty, TypeErr>
    ensures ok { IfOk result (λ ty. IsBinaryType op a b ty) }
    ensures err { IfErr result (λ error. IsBinaryRefusal op a b error) }
{
    match op {
        BinOp::Add => sized(either_signed(a, b), u16::from(width_of_both(a, b)) + 1),
        BinOp::Sub => sized(true, u16::from(width_of_both(a, b)) + 1),
        BinOp::Mul => sized(either_signed(a, b), u16::from(a.width) + u16::from(b.width)),
        BinOp::And | BinOp::Or | BinOp::Xor if a.signed != b.signed => Err(TypeErr::Mixed),
        BinOp::And | BinOp::Or | BinOp::Xor => sized(a.signed, u16::from(a.width.max(b.width))),
        BinOp::Shl | BinOp::Shr if b.signed => Err(TypeErr::Mixed),
        BinOp::Shl | BinOp::Shr => Ok(a),
        BinOp::Eq | BinOp::Ne | BinOp::Lt | BinOp::Le | BinOp::Gt | BinOp::Ge => {
            common(a, b)?;
            sized(false, 1)
        }
        BinOp::Land | BinOp::Lor => sized(false, 1),
        BinOp::Concat => sized(false, u16::from(a.width) + u16::from(b.width)),
    }
}

/// The type of `op a`.
pub fn type_of_unary(op: UnOp, a: Ty) -> Result<Ty, TypeErr>
    ensures ok { IfOk result (λ ty. IsUnaryType op a ty) }
    ensures err { IfErr result (λ error. IsUnaryRefusal op a error) }
{
    match op {
        UnOp::Neg => sized(true, u16::from(a.width) + 1),
        UnOp::Not => Ok(a),
        UnOp::Lnot => sized(false, 1),
    }
}

/// The smallest type that holds the numbers of both.
pub fn common(a: Ty, b: Ty) -> Result<Ty, TypeErr>
    ensures ok { IfOk result (λ ty. IsCommon a b ty) }
    ensures err { IfErr result (λ error. IsCommonRefusal a b error) }
{
    sized(either_signed(a, b), u16::from(width_of_both(a, b)))
}

/// Whether `b` holds every number of `a`.
pub fn embeds(a: Ty, b: Ty) -> bool
    ensures { IsTrue result ↔ (Embeds a b) }
{
    if a.signed == b.signed {
        a.width <= b.width
    } else {
        b.signed && a.width < b.width
    }
}

// Whether one of the types is signed.
fn either_signed(a: Ty, b: Ty) -> bool
    ensures { result ≡ common_signed a b }
{
    a.signed || b.signed
}

// The type of this signedness and width, if it has one.
fn sized(signed: bool, width: u16) -> Result<Ty, TypeErr>
    requires { 1 ≤ width }
    ensures ok { IfOk result (λ ty. IsSized signed width ty) }
    ensures err { IfErr result (λ error. IsTooWide width error) }
{
    if width <= 128 {
        Ok(Ty {
            signed,
            width: width as u8,
        })
    } else {
        Err(TypeErr::TooWide)
    }
}
