use crate::frame::{Frame, NamedState, Open, OpenInstr, OpenLoop, OpenState};
use crate::part::Part;
use ix_bits::{List, Name};
use ix_tree::{
    Assign, BlockText, Decl, Expr, Instr, Lvalue, Section, State, Stmt, Token, Tree, TypeText,
};

/// What is wanted in an expression, or what is had of one.
#[derive(Drop)]
pub enum ExprGoal {
    Want(u32),
    Have(u32, Part),
    /// Behind `(`: a type of a cast, or an expression.
    Opened(u32, Token),
    /// Behind `( signed` or `( unsigned`.
    CastWord(u32, Token, Token, bool),
}

/// What is wanted in a type, or the type that is had.
#[derive(Drop)]
pub enum TypeGoal {
    Typing(u32),
    Less(u32, Token, bool),
    Width(u32, Token, bool),
    Greater(u32, Token, bool, u128),
    Typed(TypeText),
}

/// What is wanted in an assignment, or what is had of one.
#[derive(Drop)]
pub enum AssignGoal {
    Assigning(u32),
    Placing(u32),
    XSquare(u32, Token),
    MemSquare(u32, Token),
    Placed(Lvalue),
    Assigned(Assign),
}

/// What is wanted in a statement, or the statement that is had.
#[derive(Drop)]
pub enum StmtGoal {
    Stmt(u32),
    /// A statement of a block, or its end.
    Item(u32, Token, List<Stmt>),
    Done(Stmt),
    /// The name of a declaration, and what goes on behind it.
    Naming(u32, TypeText, List<Decl>),
    Named(u32, Token, Name),
    IfRound(u32, Token),
    ForRound(u32, Token),
    ForHead(u32, Token),
    ForEquals(OpenLoop),
}

/// What is wanted inside of an expression or a statement.
#[derive(Drop)]
pub enum Goal {
    Expr(ExprGoal),
    Type(TypeGoal),
    Assign(AssignGoal),
    Stmt(StmtGoal),
}

/// What is wanted in the text and in its sections.
#[derive(Drop)]
pub enum TextGoal {
    Starting,
    SetName(Token),
    Sections(Token, Name, List<Section>),
    Ended(Tree),
    States(Open, List<State>),
    Instructions(Open, List<Instr>),
    Blocks(Open, List<BlockText>),
    AlwaysBrace(Open, List<BlockText>, Token, Name),
    /// Behind `register`.
    StateWord(OpenState),
    TableLength(NamedState),
    TableEnd(NamedState, u128, List<Expr>),
}

/// What is wanted in an instruction.
#[derive(Drop)]
pub enum InstrGoal {
    Piece,
    PieceSquare(Token, Name),
    PieceHigh(Token, Name),
    PieceColon(Token, Name, u128),
    PieceLow(Token, Name, u128),
    PieceEnd(Token, Name, u128, u128),
    PieceNext,
    AfterPieces,
    AssemblyText,
    AssemblyMore,
    AssemblyNext,
}

/// What is wanted next: inside of the open productions, in an open instruction, or outside of both.
#[derive(Drop)]
pub enum Place {
    Inside(Goal, Vec<Frame>),
    Instr(InstrGoal, OpenInstr),
    Text(TextGoal),
}

/// The fixed tokens that come first, by the first of them.
#[derive(Clone, Copy)]
pub enum Fixed {
    None,
    /// `extends RV32I {`
    Extends,
    Rv32i,
    Brace,
    /// `{ encoding :`
    BraceEncoding,
    Encoding,
    Colon,
    /// `; behavior :`
    SemicolonBehavior,
    Behavior,
    /// `[` of a table's length, and `] = {` behind it.
    Square,
    SquareEnd,
    Equals,
}

/// Where the reader of tokens stands.
#[derive(Drop)]
pub struct Reader {
    pub fixed: Fixed,
    pub place: Place,
}
