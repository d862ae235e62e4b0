use crate::{Expr, Span, TypeText};
use ix_bits::{BinOp, List, Name};

/// A place that an assignment writes.
#[derive(Drop)]
pub struct Lvalue {
    pub span: Span,
    pub kind: LvalueKind,
}

/// What an assignment writes: a local or a register, the program counter, a register by a field, or memory.
#[derive(Drop)]
pub enum LvalueKind {
    Name(Name),
    Pc,
    X(Expr),
    Mem(Expr, Option<Expr>),
}

/// An assignment. `op` is `None` for `=`; for `++` and `--` it is `Add` or `Sub`, and the value is the literal 1.
#[derive(Drop)]
pub struct Assign {
    pub span: Span,
    pub target: Lvalue,
    pub op: Option<BinOp>,
    pub value: Expr,
}

/// A local's declaration. One without a value starts at 0.
#[derive(Drop)]
pub struct Decl {
    pub span: Span,
    pub name: Name,
    pub value: Option<Expr>,
}

/// A statement, with the place of its first to its last token.
#[derive(Drop)]
#[cycle(statements)]
pub struct Stmt {
    pub span: Span,
    pub kind: StmtKind,
}

/// What a statement is.
#[derive(Drop)]
#[cycle(statements)]
pub enum StmtKind {
    Block(List<Stmt>),
    Empty,
    Locals(TypeText, List<Decl>),
    Assign(Assign),
    If(Expr, Box<Stmt>, Option<Box<Stmt>>),
    For(Box<Loop>),
    Spawn(Box<Stmt>),
}

/// A `for` loop. The written type before its variable has no effect.
#[derive(Drop)]
#[cycle(statements)]
pub struct Loop {
    pub ty: Option<TypeText>,
    pub name: Name,
    pub start: Expr,
    pub test: Expr,
    pub last: Assign,
    pub body: Stmt,
}
