ghost use Rattle.std.specs.Prelude.{◌≡◌};

use ix_bits::{BinOp, Bits, Ty, range};
use std::alloc::AllocError;
use std::str::SplitWhitespace;

/// A pattern with its type.
#[derive(Clone, Copy)]
pub struct Given {
    pub ty: Ty,
    pub bits: Bits,
    pub ghost widths: { bits.width ≡ ty.width },
}

pub fn next_number(words: &mut SplitWhitespace<'_>) -> Option<u128> {
    match words.next()?.parse::<u128>() {
        Ok(number) => Some(number),
        Err(_) => None,
    }
}

/// A type: `u` or `s`, and a width.
pub fn next_type(words: &mut SplitWhitespace<'_>) -> Option<Ty> {
    let signed = words.next()? == "s";
    let width = next_number(words)?;
    if 1 <= width && width <= 128 {
        Some(Ty {
            signed,
            width: width as u8,
        })
    } else {
        None
    }
}

/// A type and a pattern.
pub fn next_given(words: &mut SplitWhitespace<'_>) -> Option<Given> {
    let ty = next_type(words)?;
    let raw = next_number(words)?;
    let bits = range(Bits { raw, width: 128 }, ty.width - 1, 0);
    Some(Given { ty, bits })
}

/// The operator on two numbers that a name stands for.
pub fn operator_of(name: &str) -> Option<BinOp> {
    match name {
        "Add" => Some(BinOp::Add),
        "Sub" => Some(BinOp::Sub),
        "Mul" => Some(BinOp::Mul),
        "And" => Some(BinOp::And),
        "Or" => Some(BinOp::Or),
        "Xor" => Some(BinOp::Xor),
        "Shl" => Some(BinOp::Shl),
        "Shr" => Some(BinOp::Shr),
        "Eq" => Some(BinOp::Eq),
        "Ne" => Some(BinOp::Ne),
        "Lt" => Some(BinOp::Lt),
        "Le" => Some(BinOp::Le),
        "Gt" => Some(BinOp::Gt),
        "Ge" => Some(BinOp::Ge),
        "Land" => Some(BinOp::Land),
        "Lor" => Some(BinOp::Lor),
        "Concat" => Some(BinOp::Concat),
        _ => None,
    }
}

/// Puts a number: `u` or `s`, its width and its pattern.
pub fn put_number(out: &mut String, signed: bool, bits: Bits) -> Result<(), AllocError> {
    let sign = if signed { "s" } else { "u" };
    write!(out, "{sign} {} {}", bits.width, bits.raw)
}
