ghost use Rattle.std.specs.Prelude.{◌≡◌};
ghost use Rattle.ix_bits.specs.NearTypes.{type_near, int_type};
ghost use Rattle.ix_typing.specs.Expressions.{written, sized, embeds};
ghost use Rattle.ix_typing.specs.Texts.{nearest};
ghost use Rattle.ix_check_parts.specs.Telling.{TellsType};

use crate::CheckErr;
use ix_bits::Ty;
use ix_tree::{Span, TypeKind, TypeText};
use ix_types::embeds;

/// The type `int`.
fn int_type() -> Ty
    ensures { result ≡ int_type }
{
    Ty {
        signed: true,
        width: 32,
    }
}

/// The type of this signedness, and of the width from 1 to 128 that is next to the given one.
pub fn type_near(signed: bool, width: u128) -> Ty
    ensures { result ≡ type_near signed width }
{
    Ty {
        signed,
        width: width.min(128).max(1) as u8,
    }
}

/// The written type, or that which is next to it where its width is 0 or over 128.
pub fn nearest_type(kind: TypeKind) -> Ty
    ensures { result ≡ nearest kind }
{
    match kind {
        TypeKind::Signed(width) => type_near(true, width),
        TypeKind::Unsigned(width) => type_near(false, width),
        TypeKind::Int => int_type(),
        TypeKind::Bool => type_near(false, 1),
    }
}

/// A written type: TooWide over 128 bits, Range at 0.
pub fn written_type(text: TypeText) -> Result<Ty, CheckErr>
    ensures { TellsType result (written text.span text.kind) }
{
    match text.kind {
        TypeKind::Signed(width) => sized(text.span, true, width),
        TypeKind::Unsigned(width) => sized(text.span, false, width),
        TypeKind::Int => Ok(int_type()),
        TypeKind::Bool => Ok(type_near(false, 1)),
    }
}

fn sized(span: Span, signed: bool, width: u128) -> Result<Ty, CheckErr>
    ensures { TellsType result (sized span signed width) }
{
    if width > 128 {
        Err(CheckErr::TooWide { span })
    } else if width == 0 {
        Err(CheckErr::Range { span })
    } else {
        Ok(type_near(signed, width))
    }
}

/// Whether `b` holds each number of `a`.
pub fn goes_into(a: Ty, b: Ty) -> bool
    ensures { result ≡ embeds a b }
{
    embeds(a, b)
}
