use ix_bits::{BinOp, Bits, Ty, UnOp};
use ix_tree::{CastTo, Expr, ExprKind, TypeKind, TypeText};
use std::alloc::AllocError;

/// Puts the expression behind the text.
#[cycle(expressions)]
pub fn put_expr(out: &mut String, e: &Expr) -> Result<(), AllocError> {
    put_front(out, e)?;
    match &e.kind {
        ExprKind::Literal(_, _) => Ok(()),
        ExprKind::Name(_) => Ok(()),
        ExprKind::Pc => Ok(()),
        ExprKind::X => Ok(()),
        ExprKind::Mem => Ok(()),
        ExprKind::Index(x, l) => {
            put_one(out, x)?;
            put_last(out, l)
        }
        ExprKind::Range(x, h, l) => {
            put_one(out, x)?;
            put_one(out, h)?;
            put_last(out, l)
        }
        ExprKind::Unary(_, x) => put_last(out, x),
        ExprKind::Cast(_, x) => put_last(out, x),
        ExprKind::Binary(_, x, y) => {
            put_one(out, x)?;
            put_last(out, y)
        }
        ExprKind::Choose(c, x, y) => {
            put_one(out, c)?;
            put_one(out, x)?;
            put_last(out, y)
        }
    }
}

/// Puts what stands before the operands of an expression, or all of one without operands.
fn put_front(out: &mut String, e: &Expr) -> Result<(), AllocError> {
    match &e.kind {
        ExprKind::Literal(ty, bits) => put_literal(out, *ty, *bits),
        ExprKind::Name(name) => out.push_str(name.as_str()),
        ExprKind::Pc => out.push_str("PC"),
        ExprKind::X => out.push_str("X"),
        ExprKind::Mem => out.push_str("MEM"),
        ExprKind::Index(_, _) => out.push_str("([]"),
        ExprKind::Range(_, _, _) => out.push_str("([:]"),
        ExprKind::Unary(op, _) => {
            out.push_str("(")?;
            out.push_str(unary_text(*op))
        }
        ExprKind::Cast(to, _) => {
            out.push_str("(cast ")?;
            put_cast(out, *to)
        }
        ExprKind::Binary(op, _, _) => {
            out.push_str("(")?;
            out.push_str(binary_text(*op))
        }
        ExprKind::Choose(_, _, _) => out.push_str("(?"),
    }
}

/// Puts an operand behind the text.
#[cycle(expressions)]
fn put_one(out: &mut String, x: &Expr) -> Result<(), AllocError> {
    out.push_str(" ")?;
    put_expr(out, x)
}

/// Puts the last operand behind the text, and the bracket that ends it.
#[cycle(expressions)]
fn put_last(out: &mut String, x: &Expr) -> Result<(), AllocError> {
    out.push_str(" ")?;
    put_expr(out, x)?;
    out.push_str(")")
}

/// Puts a space and the expression behind the text, if there is one.
pub fn put_option(out: &mut String, e: &Option<Expr>) -> Result<(), AllocError> {
    match e {
        None => Ok(()),
        Some(e) => put_behind(out, e),
    }
}

/// Puts a space and the expression behind the text.
pub fn put_behind(out: &mut String, e: &Expr) -> Result<(), AllocError> {
    out.push_str(" ")?;
    put_expr(out, e)
}

/// Puts a literal: the width of its type and its value, as `8'255`. Another width of the pattern
/// stands behind a `/`, and a signed type has `s` before it; no text gives one.
fn put_literal(out: &mut String, ty: Ty, bits: Bits) -> Result<(), AllocError> {
    if ty.signed {
        out.push_str("s")?;
    }
    put_number(out, u128::from(ty.width))?;
    out.push_str("'")?;
    put_number(out, bits.raw)?;
    if bits.width != ty.width {
        out.push_str("/")?;
        put_number(out, u128::from(bits.width))?;
    }
    Ok(())
}

/// Puts fixed bits of an encoding: their width and their value, as `7'11`.
pub fn put_bits(out: &mut String, bits: Bits) -> Result<(), AllocError> {
    put_number(out, u128::from(bits.width))?;
    out.push_str("'")?;
    put_number(out, bits.raw)
}

/// Puts a number in decimal digits.
pub fn put_number(out: &mut String, number: u128) -> Result<(), AllocError> {
    write!(out, "{number}")
}

/// Puts a written type.
pub fn put_type(out: &mut String, ty: TypeText) -> Result<(), AllocError> {
    match ty.kind {
        TypeKind::Signed(width) => put_width(out, "signed<", width),
        TypeKind::Unsigned(width) => put_width(out, "unsigned<", width),
        TypeKind::Int => out.push_str("int"),
        TypeKind::Bool => out.push_str("bool"),
    }
}

/// Puts a type of a written width.
fn put_width(out: &mut String, word: &str, width: u128) -> Result<(), AllocError> {
    out.push_str(word)?;
    put_number(out, width)?;
    out.push_str(">")
}

/// Puts what a cast goes to.
fn put_cast(out: &mut String, to: CastTo) -> Result<(), AllocError> {
    match to {
        CastTo::Written(ty) => put_type(out, ty),
        CastTo::Signed => out.push_str("signed"),
        CastTo::Unsigned => out.push_str("unsigned"),
    }
}

/// The symbol of an operator on one number.
fn unary_text(op: UnOp) -> &'static str {
    match op {
        UnOp::Neg => "-",
        UnOp::Not => "~",
        UnOp::Lnot => "!",
    }
}

/// The symbol of an operator on two numbers.
pub fn binary_text(op: BinOp) -> &'static str {
    match op {
        BinOp::Add => "+",
        BinOp::Sub => "-",
        BinOp::Mul => "*",
        BinOp::And => "&",
        BinOp::Or => "|",
        BinOp::Xor => "^",
        BinOp::Shl => "<<",
        BinOp::Shr => ">>",
        BinOp::Eq => "==",
        BinOp::Ne => "!=",
        BinOp::Lt => "<",
        BinOp::Le => "<=",
        BinOp::Gt => ">",
        BinOp::Ge => ">=",
        BinOp::Land => "&&",
        BinOp::Lor => "||",
        BinOp::Concat => "::",
    }
}
