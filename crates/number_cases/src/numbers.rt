use crate::given::{next_given, next_number, next_type, operator_of, put_number};
use ix_bits::{BinOp, Bits, Ty, UnOp, binary, cast, range, unary};
use ix_types::{TypeErr, type_of_binary, type_of_unary};
use std::alloc::AllocError;
use std::str::SplitWhitespace;

/// What comes of a case.
enum Answer {
    Value(bool, Bits),
    Refused(TypeErr),
}

/// The answer to a case, or `None` where the text is no case.
fn answer_to(text: &str) -> Option<Answer> {
    let mut words = text.split_whitespace();
    let name = words.next()?;
    match name {
        "Cast" => answer_to_cast(&mut words),
        "Range" => answer_to_range(&mut words),
        "Neg" => answer_to_unary(UnOp::Neg, &mut words),
        "Not" => answer_to_unary(UnOp::Not, &mut words),
        "Lnot" => answer_to_unary(UnOp::Lnot, &mut words),
        _ => answer_to_binary(operator_of(name)?, &mut words),
    }
}

fn answer_to_binary(op: BinOp, words: &mut SplitWhitespace<'_>) -> Option<Answer> {
    let a = next_given(words)?;
    let b = next_given(words)?;
    match type_of_binary(op, a.ty, b.ty) {
        Ok(ty) => Some(Answer::Value(ty.signed, binary(op, a.ty, a.bits, b.ty, b.bits))),
        Err(error) => Some(Answer::Refused(error)),
    }
}

fn answer_to_unary(op: UnOp, words: &mut SplitWhitespace<'_>) -> Option<Answer> {
    let a = next_given(words)?;
    match type_of_unary(op, a.ty) {
        Ok(ty) => Some(Answer::Value(ty.signed, unary(op, a.ty, a.bits))),
        Err(error) => Some(Answer::Refused(error)),
    }
}

fn answer_to_cast(words: &mut SplitWhitespace<'_>) -> Option<Answer> {
    let a = next_given(words)?;
    let to = next_type(words)?;
    Some(Answer::Value(to.signed, cast(a.ty, to, a.bits)))
}

fn answer_to_range(words: &mut SplitWhitespace<'_>) -> Option<Answer> {
    let a = next_given(words)?;
    let hi = next_number(words)?;
    let lo = next_number(words)?;
    if lo <= hi && hi < u128::from(a.bits.width) {
        Some(Answer::Value(false, range(a.bits, hi as u8, lo as u8)))
    } else {
        None
    }
}

/// Puts the line of a case, and its result.
fn put_line(out: &mut String, text: &str) -> Result<(), AllocError> {
    out.push_str(text)?;
    match answer_to(text) {
        Some(Answer::Value(signed, bits)) => {
            out.push_str(" = ")?;
            put_number(out, signed, bits)?;
            out.push_str("\n")
        }
        Some(Answer::Refused(error)) => write!(out, " = {error:?}\n"),
        None => out.push_str(": no case\n"),
    }
}

/// Puts the lines of a table, each with its result.
pub fn put_numbers(out: &mut String, table: &str) -> Result<(), AllocError> {
    for line in table.lines() {
        put_line(out, line)?;
    }
    Ok(())
}
