use crate::chain::{Indexed, Operand};
use crate::part::Part;
use ix_bits::{BinOp, List, Name, UnOp};
use ix_tree::{
    Assign, BlockText, CastTo, Decl, Expr, Instr, Lvalue, PieceText, Section, State, Stmt, Token,
    TypeText,
};

/// The text so far: its first token, its name and its whole sections, and the word of the open section.
#[derive(Drop)]
pub struct Open {
    pub first: Token,
    pub name: Name,
    pub sections: List<Section>,
    pub word: Token,
}

/// An open instruction: the instructions before it, its first token, its name and its pieces so far.
#[derive(Drop)]
pub struct OpenInstr {
    pub within: Open,
    pub before: List<Instr>,
    pub first: Token,
    pub name: Name,
    pub pieces: List<PieceText>,
}

/// An open register or table: the states before it, and its first token.
#[derive(Drop)]
pub struct OpenState {
    pub within: Open,
    pub before: List<State>,
    pub first: Token,
}

/// An open register or table of which the type and the name are read.
#[derive(Drop)]
pub struct NamedState {
    pub state: OpenState,
    pub ty: TypeText,
    pub name: Name,
}

/// An open always-block: the blocks before it, its first token and its name.
#[derive(Drop)]
pub struct OpenAlways {
    pub within: Open,
    pub before: List<BlockText>,
    pub first: Token,
    pub name: Name,
}

/// The head of an open loop, as far as its start.
#[derive(Drop)]
pub struct OpenLoop {
    pub depth: u32,
    pub first: Token,
    pub ty: Option<TypeText>,
    pub name: Name,
}

/// An open production of an expression that ends with its expression.
#[derive(Drop)]
pub enum OperatorFrame {
    Unary(u32, Token, UnOp),
    Cast(u32, Token, CastTo),
    Binary(Operand),
    /// The third part of a choice.
    Else(u32, Part, Part),
}

/// An open production that a token behind an expression closes or goes on with.
#[derive(Drop)]
pub enum ClosingFrame {
    Round(u32, Token),
    Index(Indexed),
    Range(Indexed, Part),
    /// The second part of a choice.
    Then(u32, Part),
    X(u32, Token),
    Mem(u32, Token),
    MemRange(u32, Token, Part),
    /// A place that is set.
    Set(u32, Lvalue, Option<BinOp>),
    /// A name whose value is read.
    Value(Token, Name),
    If(u32, Token),
    Start(OpenLoop),
    Test(OpenLoop, Part),
    Entries(NamedState, u128, List<Expr>),
}

/// An open production that ends behind an assignment, or the step before a place.
#[derive(Drop)]
pub enum AssignFrame {
    Step(Token, BinOp),
    /// A whole statement.
    Single(u32),
    /// The last part of a loop's head.
    Last(OpenLoop, Part, Part),
}

/// What a type is read for.
#[derive(Drop)]
pub enum TypeFrame {
    Cast(u32, Token),
    Locals(u32),
    Loop(u32, Token),
    Register(OpenState),
    Table(OpenState),
}

/// What a name and its value are read for.
#[derive(Drop)]
pub enum DeclFrame {
    Locals(u32, TypeText, List<Decl>),
    Register(NamedState),
}

/// An open statement that ends with its last statement.
#[derive(Drop)]
pub enum StmtFrame {
    Branch(u32, Token, Part),
    /// The part behind `else`.
    Other(u32, Token, Part, Stmt),
    Loop(OpenLoop, Part, Part, Assign),
    Spawn(u32, Token),
}

/// What goes on behind a statement.
#[derive(Drop)]
pub enum BodyFrame {
    Block(u32, Token, List<Stmt>),
    Behavior(OpenInstr),
    Always(OpenAlways),
}

/// An open production: the nesting at which it stands, and what was read of it.
#[derive(Drop)]
pub enum Frame {
    Operator(OperatorFrame),
    Closing(ClosingFrame),
    Assign(AssignFrame),
    Type(TypeFrame),
    Decl(DeclFrame),
    Stmt(StmtFrame),
    Body(BodyFrame),
}
