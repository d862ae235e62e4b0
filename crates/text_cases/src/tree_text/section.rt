use crate::tree_text::expr::{put_behind, put_bits, put_number, put_option, put_type};
use crate::tree_text::stmt::put_stmt;
use ix_bits::Name;
use ix_tree::{
    BlockText, Instr, PieceKind, PieceText, Section, SectionKind, State, StateKind, Stmt, Tree,
};
use std::alloc::AllocError;

/// Puts the tree of a text behind the text, and its place.
pub fn put_tree(out: &mut String, tree: &Tree) -> Result<(), AllocError> {
    out.push_str("(set ")?;
    out.push_str(tree.name.as_str())?;
    for section in tree.sections.as_slice() {
        out.push_str(" ")?;
        put_section(out, section)?;
    }
    out.push_str(") @")?;
    put_number(out, u128::from(tree.span.from))?;
    out.push_str("-")?;
    put_number(out, u128::from(tree.span.to))
}

/// Puts a section.
fn put_section(out: &mut String, section: &Section) -> Result<(), AllocError> {
    match &section.kind {
        SectionKind::States(states) => put_states(out, states.as_slice()),
        SectionKind::Instructions(instrs) => put_instrs(out, instrs.as_slice()),
        SectionKind::Always(blocks) => put_always(out, blocks.as_slice()),
    }
}

/// Puts the registers and tables of a section.
fn put_states(out: &mut String, states: &[State]) -> Result<(), AllocError> {
    out.push_str("(state")?;
    for state in states {
        out.push_str(" ")?;
        put_state(out, state)?;
    }
    out.push_str(")")
}

/// Puts the instructions of a section.
fn put_instrs(out: &mut String, instrs: &[Instr]) -> Result<(), AllocError> {
    out.push_str("(instructions")?;
    for instr in instrs {
        out.push_str(" ")?;
        put_instr(out, instr)?;
    }
    out.push_str(")")
}

/// Puts the always-blocks of a section.
fn put_always(out: &mut String, blocks: &[BlockText]) -> Result<(), AllocError> {
    out.push_str("(always")?;
    for block in blocks {
        out.push_str(" (")?;
        put_body(out, &block.name, &block.body)?;
    }
    out.push_str(")")
}

/// Puts the name and the statement of an always-block.
fn put_body(out: &mut String, name: &Name, body: &Stmt) -> Result<(), AllocError> {
    out.push_str(name.as_str())?;
    out.push_str(" ")?;
    put_stmt(out, body)?;
    out.push_str(")")
}

/// Puts a register with its initial value, if it has one, or a table with its length and its
/// entries.
fn put_state(out: &mut String, state: &State) -> Result<(), AllocError> {
    match &state.kind {
        StateKind::Register(value) => {
            out.push_str("(register ")?;
            put_head(out, state)?;
            put_option(out, value)?;
        }
        StateKind::Table { length, entries } => {
            out.push_str("(const ")?;
            put_head(out, state)?;
            out.push_str("[")?;
            put_number(out, *length)?;
            out.push_str("]")?;
            for entry in entries.as_slice() {
                put_behind(out, entry)?;
            }
        }
    }
    out.push_str(")")
}

/// Puts the type and the name of a register or a table.
fn put_head(out: &mut String, state: &State) -> Result<(), AllocError> {
    put_type(out, state.ty)?;
    out.push_str(" ")?;
    out.push_str(state.name.as_str())
}

/// Puts an instruction: its name, its pieces and its behaviour.
fn put_instr(out: &mut String, instr: &Instr) -> Result<(), AllocError> {
    out.push_str("(")?;
    out.push_str(instr.name.as_str())?;
    out.push_str(" (")?;
    for (place, piece) in instr.pieces.as_slice().iter().enumerate() {
        if place > 0 {
            out.push_str(" ")?;
        }
        put_piece(out, piece)?;
    }
    out.push_str(") ")?;
    put_stmt(out, &instr.body)?;
    out.push_str(")")
}

/// Puts a piece of an encoding.
fn put_piece(out: &mut String, piece: &PieceText) -> Result<(), AllocError> {
    match &piece.kind {
        PieceKind::Fixed(bits) => put_bits(out, *bits),
        PieceKind::Field { name, hi, lo } => {
            out.push_str(name.as_str())?;
            out.push_str("[")?;
            put_number(out, *hi)?;
            out.push_str(":")?;
            put_number(out, *lo)?;
            out.push_str("]")
        }
    }
}
