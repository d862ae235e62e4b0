//! Puts trees of CoreDSL texts behind a text. Words in capitals stand for what they name, and
//! `..` repeats.
//!
//! - The text: `(set NAME SECTION ..) @FROM-TO`, with the bytes that it stands on.
//! - A section: `(state STATE ..)`, `(instructions INSTR ..)` or `(always (NAME STMT) ..)`.
//! - A state: `(register TYPE NAME)`, `(register TYPE NAME EXPR)` or
//!   `(const TYPE NAME[LENGTH] EXPR ..)`.
//! - An instruction: `(NAME (PIECE ..) STMT)`, and a piece `WIDTH'VALUE` or `NAME[HI:LO]`.
//! - A type: `signed<N>`, `unsigned<N>`, `int` or `bool`.
//! - A statement: `(block STMT ..)`, `;`, `(let TYPE DECL ..)` with `NAME` or `(NAME EXPR)` for
//!   each declaration, `ASSIGN`, `(if EXPR STMT)`, `(if EXPR STMT STMT)`,
//!   `(for TYPE NAME EXPR EXPR ASSIGN STMT)` with `-` for no type, or `(spawn STMT)`.
//! - An assignment: `(= PLACE EXPR)`, `(+= PLACE EXPR)` and so on, with a place `NAME`, `PC`,
//!   `(X EXPR)`, `(MEM EXPR)` or `(MEM EXPR EXPR)`. `v++` is `(+= v 1'1)`.
//! - An expression: `WIDTH'VALUE`, `NAME`, `PC`, `X`, `MEM`, `([] EXPR EXPR)` for `x[l]`,
//!   `([:] EXPR EXPR EXPR)` for `x[h:l]`, `(- EXPR)` and so on, `(cast TYPE EXPR)`, also with
//!   `signed` or `unsigned` alone, `(+ EXPR EXPR)` and so on, or `(? EXPR EXPR EXPR)`.

mod expr;
mod section;
mod spans;
mod stmt;

pub(crate) use section::put_tree;
pub(crate) use spans::put_spans;
