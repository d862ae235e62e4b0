use crate::Span;
use ix_bits::{BinOp, Bits, Name, Ty, UnOp};

/// A type as it is written.
#[derive(Clone, Copy, Debug, PartialEq, Eq)]
pub struct TypeText {
    pub span: Span,
    pub kind: TypeKind,
}

/// A written type, with its width as written: it may be 0 or over 128.
#[derive(Clone, Copy, Debug, PartialEq, Eq)]
pub enum TypeKind {
    Signed(u128),
    Unsigned(u128),
    Int,
    Bool,
}

/// What a cast goes to: a written type, or the other signedness at the operand's width.
#[derive(Clone, Copy, Debug, PartialEq, Eq)]
pub enum CastTo {
    Written(TypeText),
    Signed,
    Unsigned,
}

/// An expression, with the place of its first to its last token.
#[derive(Drop)]
#[cycle(expressions)]
pub struct Expr {
    pub span: Span,
    pub kind: ExprKind,
}

/// What an expression is. Round brackets make no node.
#[derive(Drop)]
#[cycle(expressions)]
pub enum ExprKind {
    Literal(Ty, Bits),
    Name(Name),
    Pc,
    X,
    Mem,
    Index(Box<Expr>, Box<Expr>),
    Range(Box<Expr>, Box<Expr>, Box<Expr>),
    Unary(UnOp, Box<Expr>),
    Cast(CastTo, Box<Expr>),
    Binary(BinOp, Box<Expr>, Box<Expr>),
    Choose(Box<Expr>, Box<Expr>, Box<Expr>),
}
