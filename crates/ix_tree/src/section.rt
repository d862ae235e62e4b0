use crate::{Expr, Span, Stmt, TypeText};
use ix_bits::{Bits, List, Name};

/// The tree of a whole text: an instruction set and its sections.
#[derive(Drop)]
pub struct Tree {
    pub span: Span,
    pub name: Name,
    pub sections: List<Section>,
}

/// A section, with the place of its first to its last token.
#[derive(Drop)]
pub struct Section {
    pub span: Span,
    pub kind: SectionKind,
}

/// `architectural_state`, `instructions` or `always`, with what stands in it.
#[derive(Drop)]
pub enum SectionKind {
    States(List<State>),
    Instructions(List<Instr>),
    Always(List<BlockText>),
}

/// A register or a table of constants.
#[derive(Drop)]
pub struct State {
    pub span: Span,
    pub name: Name,
    pub ty: TypeText,
    pub kind: StateKind,
}

/// A register with its initial value, or a table with its length as written and its entries.
#[derive(Drop)]
pub enum StateKind {
    Register(Option<Expr>),
    Table { length: u128, entries: List<Expr> },
}

/// An instruction: the pieces of its encoding, from bit 31 down, and its behaviour.
#[derive(Drop)]
pub struct Instr {
    pub span: Span,
    pub name: Name,
    pub pieces: List<PieceText>,
    pub body: Stmt,
}

/// An always-block.
#[derive(Drop)]
pub struct BlockText {
    pub span: Span,
    pub name: Name,
    pub body: Stmt,
}

/// A piece of an encoding.
#[derive(Drop)]
pub struct PieceText {
    pub span: Span,
    pub kind: PieceKind,
}

/// Fixed bits, or bits `hi` down to `lo` of a field.
#[derive(Drop)]
pub enum PieceKind {
    Fixed(Bits),
    Field { name: Name, hi: u128, lo: u128 },
}
