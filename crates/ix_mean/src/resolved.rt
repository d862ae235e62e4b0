use ix_bits::{BinOp, Bits, List, Ty};
use ix_graph::Kind;

/// An expression with its names resolved.
#[derive(Drop)]
pub enum ResolvedExpr {
    Const(Ty, Bits),
    Slot(usize, Ty),
    Read(Kind, Ty),
    Load(Ty, Box<ResolvedExpr>),
    One(Kind, Ty, Box<ResolvedExpr>),
    Cast(Ty, Box<ResolvedExpr>),
    /// An entry of a table, by the table's number: its type and its place.
    Entry(usize, Ty, Box<ResolvedExpr>),
    Two(BinOp, Ty, Box<ResolvedExpr>, Box<ResolvedExpr>),
    Choose(Ty, Box<ResolvedExpr>, Box<ResolvedExpr>, Box<ResolvedExpr>),
}

/// A write: its target, the target's type, the value and the address.
#[derive(Drop)]
pub struct Writing {
    pub target: usize,
    pub ty: Ty,
    pub value: ResolvedExpr,
    pub address: ResolvedExpr,
}

/// A statement with its names resolved.
#[derive(Drop)]
pub enum ResolvedStmt {
    Block(List<ResolvedStmt>),
    Set(usize, Ty, ResolvedExpr),
    Write(Writing),
    If(ResolvedExpr, Box<ResolvedStmt>, Box<ResolvedStmt>),
    Spawn(Box<ResolvedStmt>),
}

/// The types of a behaviour's slots and of its targets: memory, rd, the program counter and the custom registers.
#[derive(Drop)]
pub struct Types {
    pub slots: List<Ty>,
    pub targets: List<Ty>,
}
