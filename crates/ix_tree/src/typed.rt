use crate::{CastTo, PieceText, Span, TypeText};
use ix_bits::{BinOp, Bits, List, Name, Ty, UnOp};

/// A tree without loops, with a type at each expression.
#[derive(Drop)]
pub struct Typed {
    pub span: Span,
    pub name: Name,
    pub sections: List<TypedSection>,
}

/// A section of a typed tree.
#[derive(Drop)]
pub struct TypedSection {
    pub span: Span,
    pub kind: TypedSectionKind,
}

/// What a section of a typed tree is.
#[derive(Drop)]
pub enum TypedSectionKind {
    States(List<TypedState>),
    Instructions(List<TypedInstr>),
    Always(List<TypedBlockText>),
}

/// A register or a table of constants.
#[derive(Drop)]
pub struct TypedState {
    pub span: Span,
    pub name: Name,
    pub ty: TypeText,
    pub kind: TypedStateKind,
}

/// A register with its initial value, or a table with its length as written and its entries.
#[derive(Drop)]
pub enum TypedStateKind {
    Register(Option<TypedExpr>),
    Table {
        length: u128,
        entries: List<TypedExpr>,
    },
}

/// An instruction with a typed behaviour.
#[derive(Drop)]
pub struct TypedInstr {
    pub span: Span,
    pub name: Name,
    pub pieces: List<PieceText>,
    pub body: TypedStmt,
}

/// An always-block with a typed body.
#[derive(Drop)]
pub struct TypedBlockText {
    pub span: Span,
    pub name: Name,
    pub body: TypedStmt,
}

/// A typed statement.
#[derive(Drop)]
#[cycle(typed_statements)]
pub struct TypedStmt {
    pub span: Span,
    pub kind: TypedStmtKind,
}

/// What a typed statement is: no loop is among them.
#[derive(Drop)]
#[cycle(typed_statements)]
pub enum TypedStmtKind {
    Block(List<TypedStmt>),
    Empty,
    Locals(TypeText, List<TypedDecl>),
    Assign(TypedAssign),
    If(TypedExpr, Box<TypedStmt>, Option<Box<TypedStmt>>),
    Spawn(Box<TypedStmt>),
}

/// A local's declaration.
#[derive(Drop)]
pub struct TypedDecl {
    pub span: Span,
    pub name: Name,
    pub value: Option<TypedExpr>,
}

/// An assignment. `op` is `None` for `=`.
#[derive(Drop)]
pub struct TypedAssign {
    pub span: Span,
    pub target: TypedLvalue,
    pub op: Option<BinOp>,
    pub value: TypedExpr,
}

/// A place that an assignment writes.
#[derive(Drop)]
pub struct TypedLvalue {
    pub span: Span,
    pub kind: TypedLvalueKind,
}

/// What an assignment writes.
#[derive(Drop)]
pub enum TypedLvalueKind {
    Name(Name),
    Pc,
    X(TypedExpr),
    Mem(TypedExpr, Option<TypedExpr>),
}

/// An expression with its type. A table's name, and an `X` or `MEM` below an index, has the type of one element.
#[derive(Drop)]
#[cycle(typed_expressions)]
pub struct TypedExpr {
    pub span: Span,
    pub ty: Ty,
    pub kind: TypedExprKind,
}

/// What a typed expression is.
#[derive(Drop)]
#[cycle(typed_expressions)]
pub enum TypedExprKind {
    Literal(Ty, Bits),
    Name(Name),
    Pc,
    X,
    Mem,
    Index(Box<TypedExpr>, Box<TypedExpr>),
    Range(Box<TypedExpr>, Box<TypedExpr>, Box<TypedExpr>),
    Unary(UnOp, Box<TypedExpr>),
    Cast(CastTo, Box<TypedExpr>),
    Binary(BinOp, Box<TypedExpr>, Box<TypedExpr>),
    Choose(Box<TypedExpr>, Box<TypedExpr>, Box<TypedExpr>),
}
