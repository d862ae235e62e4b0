use ix_bits::{Bits, Name, Ty};

/// The bytes from `from` up to, but without, `to`.
#[derive(Clone, Copy, Debug, PartialEq, Eq)]
pub struct Span {
    pub from: u32,
    pub to: u32,
}

/// A token of a CoreDSL text, and where it stands.
#[derive(Debug, Drop)]
pub struct Token {
    pub kind: TokenKind,
    pub span: Span,
}

/// What a token is. A number holds its type and its value, and a string keeps no bytes.
#[derive(Debug, Drop)]
pub enum TokenKind {
    Name(Name),
    Text,
    Unsized(Ty, Bits),
    Sized(Ty, Bits),
    /// The number of a reserved word in `WORDS`.
    Word(u8),
    /// The number of a symbol in `SYMBOLS`.
    Symbol(u8),
}

/// The reserved words. No name is one of them.
pub static WORDS: [&str; 24] = [
    "InstructionSet",
    "extends",
    "RV32I",
    "architectural_state",
    "instructions",
    "always",
    "register",
    "const",
    "encoding",
    "assembly",
    "behavior",
    "signed",
    "unsigned",
    "int",
    "bool",
    "if",
    "else",
    "for",
    "spawn",
    "PC",
    "X",
    "MEM",
    "true",
    "false",
];

/// The symbols. Where several begin at a byte, the longest is the token.
pub static SYMBOLS: [&str; 40] = [
    "{", "}", "[", "]", "(", ")", ";", ",", ":", "::", "=", "+=", "-=", "*=", "&=", "|=", "^=",
    "<<=", ">>=", "++", "--", "?", "||", "&&", "|", "^", "&", "==", "!=", "<", "<=", ">", ">=",
    "<<", ">>", "+", "-", "*", "~", "!",
];
