use crate::TypedStmt;
use ix_bits::{Bits, List, Name, Ty};

/// An instruction set extension: what a text means, its names resolved and its encodings worked out.
#[derive(Drop)]
pub struct Extension {
    pub name: Name,
    pub registers: List<Register>,
    pub tables: List<Table>,
    pub instructions: List<Instruction>,
    pub blocks: List<Behaviour>,
}

/// A custom register with the value that it starts with.
#[derive(Drop)]
pub struct Register {
    pub name: Name,
    pub ty: Ty,
    pub initial: Bits,
}

/// A table of constants of one type.
#[derive(Drop)]
pub struct Table {
    pub name: Name,
    pub ty: Ty,
    pub entries: List<Bits>,
}

/// An instruction: a word is this instruction where it has the bits of `matches` under `mask`.
#[derive(Drop)]
pub struct Instruction {
    pub mask: u32,
    pub matches: u32,
    pub pieces: List<Piece>,
    pub behaviour: Behaviour,
}

/// Bits `hi` down to `lo` of a field stand in the word with their lowest at bit `at`.
#[derive(Drop)]
pub struct Piece {
    pub field: Name,
    pub hi: u8,
    pub lo: u8,
    pub at: u8,
}

/// What an instruction or an always-block does: one statement, its outermost.
#[derive(Drop)]
pub struct Behaviour {
    pub name: Name,
    pub body: List<TypedStmt>,
}
