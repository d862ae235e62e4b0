//! Tokens, trees and extensions, and the grammar of the CoreDSL profile that relates a text's tokens to its tree.
#![tactic(auto)]

mod expr;
mod extension;
mod grammar;
mod section;
mod stmt;
mod token;
mod typed;

pub use expr::{CastTo, Expr, ExprKind, TypeKind, TypeText};
pub use extension::{Behaviour, Extension, Instruction, Piece, Register, Table};
pub use grammar::{grammar_laws, table_laws};
pub use section::{
    BlockText, Instr, PieceKind, PieceText, Section, SectionKind, State, StateKind, Tree,
};
pub use stmt::{Assign, Decl, Loop, Lvalue, LvalueKind, Stmt, StmtKind};
pub use token::{SYMBOLS, Span, Token, TokenKind, WORDS};
pub use typed::{
    Typed, TypedAssign, TypedBlockText, TypedDecl, TypedExpr, TypedExprKind, TypedInstr,
    TypedLvalue, TypedLvalueKind, TypedSection, TypedSectionKind, TypedState, TypedStateKind,
    TypedStmt, TypedStmtKind,
};
