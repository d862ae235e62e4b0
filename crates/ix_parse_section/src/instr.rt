ghost use Rattle.std.specs.Prelude.{◌≡◌, [], ◌∷◌, IfOk};
ghost use Rattle.ix_tree.specs.Productions.{field_piece, fixed_piece};
ghost use Rattle.ix_tree.specs.Machine.{act, begin_piece, more_pieces, piece_square, piece_high, piece_colon, piece_low, piece_end, piece_next, after_pieces, after_assembly, after_comma, assembly_next, stmt, f_behavior, step};
ghost use Rattle.ix_parse_state.specs.Views.{of_instr, instr_of, of_place};
ghost use Rattle.ix_parse_state.specs.Moves.{Moves};

use ix_bits::{Bits, Memory, Name};
use ix_parse_state::frame::{BodyFrame, Frame, OpenInstr};
use ix_parse_state::look::{copy, is_symbol, is_word};
use ix_parse_state::node::between;
use ix_parse_state::reader::{behind, in_instr};
use ix_parse_state::sign::{
    ASSEMBLY, BEHAVIOR, CLOSE_BRACE, CLOSE_SQUARE, COLON, COMMA, DOUBLE_COLON, OPEN_BRACE,
    OPEN_SQUARE, SEMICOLON,
};
use ix_parse_state::stack::single;
use ix_parse_state::state::{Fixed, Goal, InstrGoal, Place, Reader, StmtGoal};
use ix_parse_state::stop::Stop;
use ix_tree::{PieceKind, PieceText, Token, TokenKind};
use std::alloc::Global;

/// What the token leads to in an instruction.
#[tactic(auto, unfolding(ix_tree::specs::Machine::step))]
pub fn instr_step(
    alloc: Global,
    goal: InstrGoal,
    instr: OpenInstr,
    token: &Token,
) -> Result<Reader, Stop>
    ensures { Moves result (step (of_instr goal (instr_of instr)) token.now) }
{
    match goal {
        InstrGoal::Piece => begin_piece(alloc, instr, token),
        InstrGoal::PieceSquare(first, name) => begin_range(instr, first, name, token),
        InstrGoal::PieceHigh(first, name) => after_square(instr, first, name, token),
        InstrGoal::PieceColon(first, name, hi) => after_high(instr, first, name, hi, token),
        InstrGoal::PieceLow(first, name, hi) => after_colon(instr, first, name, hi, token),
        InstrGoal::PieceEnd(first, name, hi, lo) => end_piece(instr, first, name, hi, lo, token),
        InstrGoal::PieceNext => after_piece(instr, token),
        InstrGoal::AfterPieces => after_pieces(alloc, instr, token),
        InstrGoal::AssemblyText => after_assembly(alloc, instr, token),
        InstrGoal::AssemblyMore => after_comma(instr, token),
        InstrGoal::AssemblyNext => after_line(alloc, instr, token),
    }
}

/// What the first token of a piece leads to.
fn begin_piece(alloc: Global, instr: OpenInstr, token: &Token) -> Result<Reader, Stop>
    ensures { Moves result (begin_piece (instr_of instr) token.now token.now.kind) }
{
    match &token.kind {
        TokenKind::Sized(_, bits) => {
            let instr = more_pieces(instr, fixed_piece(token, *bits))?;
            Ok(in_instr(InstrGoal::PieceNext, instr))
        }
        TokenKind::Name(name) => {
            let Ok(name) = Name::from_text(alloc, name.as_str()) else {
                drop(instr);
                return Err(Stop::Memory);
            };
            let Ok(first) = copy(alloc, token) else {
                drop(instr);
                return Err(Stop::Memory);
            };
            Ok(in_instr(InstrGoal::PieceSquare(first, name), instr))
        }
        _ => {
            drop(instr);
            Err(Stop::Refused)
        }
    }
}

/// Fixed bits of an encoding.
fn fixed_piece(token: &Token, bits: Bits) -> PieceText
    ensures { result ≡ fixed_piece token.now bits }
{
    PieceText {
        span: token.span,
        kind: PieceKind::Fixed(bits),
    }
}

/// Bits of a field in an encoding, by their first and last token.
fn field_piece(first: Token, name: Name, hi: u128, lo: u128, last: &Token) -> PieceText
    ensures { result ≡ field_piece first name hi lo last.now }
{
    PieceText {
        span: between(&first, last),
        kind: PieceKind::Field { name, hi, lo },
    }
}

/// The instruction with one more piece.
fn more_pieces(instr: OpenInstr, piece: PieceText) -> Result<OpenInstr, Memory>
    ensures { IfOk result (λ i. instr_of i ≡ more_pieces (instr_of instr) piece) }
{
    let OpenInstr {
        within,
        before,
        first,
        name,
        mut pieces,
    } = instr;
    pieces.push(piece)?;
    Ok(OpenInstr {
        within,
        before,
        first,
        name,
        pieces,
    })
}

/// What goes on behind the name of a field.
fn begin_range(instr: OpenInstr, first: Token, name: Name, token: &Token) -> Result<Reader, Stop>
    ensures { Moves result (act token.now (piece_square (instr_of instr) first name)) }
{
    if !is_symbol(token, OPEN_SQUARE) {
        drop(instr);
        drop(first);
        return Err(Stop::Refused);
    }
    Ok(in_instr(InstrGoal::PieceHigh(first, name), instr))
}

/// What goes on where the highest bit of a field is wanted.
fn after_square(instr: OpenInstr, first: Token, name: Name, token: &Token) -> Result<Reader, Stop>
    ensures { Moves result (act token.now (piece_high (instr_of instr) first name)) }
{
    match &token.kind {
        TokenKind::Unsized(_, bits) => {
            Ok(in_instr(InstrGoal::PieceColon(first, name, bits.raw), instr))
        }
        _ => {
            drop(instr);
            drop(first);
            Err(Stop::Refused)
        }
    }
}

/// What goes on behind the highest bit of a field.
fn after_high(
    instr: OpenInstr,
    first: Token,
    name: Name,
    hi: u128,
    token: &Token,
) -> Result<Reader, Stop>
    ensures { Moves result (act token.now (piece_colon (instr_of instr) first name hi)) }
{
    if !is_symbol(token, COLON) {
        drop(instr);
        drop(first);
        return Err(Stop::Refused);
    }
    Ok(in_instr(InstrGoal::PieceLow(first, name, hi), instr))
}

/// What goes on where the lowest bit of a field is wanted.
fn after_colon(
    instr: OpenInstr,
    first: Token,
    name: Name,
    hi: u128,
    token: &Token,
) -> Result<Reader, Stop>
    ensures { Moves result (act token.now (piece_low (instr_of instr) first name hi)) }
{
    match &token.kind {
        TokenKind::Unsized(_, bits) => {
            Ok(in_instr(InstrGoal::PieceEnd(first, name, hi, bits.raw), instr))
        }
        _ => {
            drop(instr);
            drop(first);
            Err(Stop::Refused)
        }
    }
}

/// What goes on behind the bits of a field.
fn end_piece(
    instr: OpenInstr,
    first: Token,
    name: Name,
    hi: u128,
    lo: u128,
    token: &Token,
) -> Result<Reader, Stop>
    ensures { Moves result (act token.now (piece_end (instr_of instr) first name hi lo)) }
{
    if !is_symbol(token, CLOSE_SQUARE) {
        drop(instr);
        drop(first);
        return Err(Stop::Refused);
    }
    let instr = more_pieces(instr, field_piece(first, name, hi, lo, token))?;
    Ok(in_instr(InstrGoal::PieceNext, instr))
}

/// What goes on behind a piece.
fn after_piece(instr: OpenInstr, token: &Token) -> Result<Reader, Stop>
    ensures { Moves result (act token.now (piece_next (instr_of instr))) }
{
    if is_symbol(token, DOUBLE_COLON) {
        return Ok(in_instr(InstrGoal::Piece, instr));
    }
    if !is_symbol(token, SEMICOLON) {
        drop(instr);
        return Err(Stop::Refused);
    }
    Ok(in_instr(InstrGoal::AfterPieces, instr))
}

/// What goes on behind an encoding.
#[tactic(auto, unfolding(ix_parse_state::specs::Views::of_place))]
fn after_pieces(alloc: Global, instr: OpenInstr, token: &Token) -> Result<Reader, Stop>
    ensures { Moves result (act token.now (after_pieces (instr_of instr))) }
{
    if is_word(token, BEHAVIOR) {
        let place = in_behavior(alloc, instr)?;
        return Ok(behind(Fixed::Colon, place));
    }
    if !is_word(token, ASSEMBLY) {
        drop(instr);
        return Err(Stop::Refused);
    }
    Ok(behind(Fixed::Colon, Place::Instr(InstrGoal::AssemblyText, instr)))
}

/// Where the statement of an instruction begins.
#[tactic(auto, unfolding(ix_parse_state::specs::Views::of_place))]
fn in_behavior(alloc: Global, instr: OpenInstr) -> Result<Place, Memory>
    ensures { IfOk result (λ p. of_place p ≡ stmt 0 (f_behavior (instr_of instr) ∷ [])) }
{
    let stack = single(alloc, Frame::Body(BodyFrame::Behavior(instr)))?;
    Ok(Place::Inside(Goal::Stmt(StmtGoal::Stmt(0)), stack))
}

/// What goes on behind `assembly :`.
#[tactic(auto, unfolding(ix_tree::specs::Machine::after_assembly, ix_parse_state::specs::Views::of_place))]
fn after_assembly(alloc: Global, instr: OpenInstr, token: &Token) -> Result<Reader, Stop>
    ensures { Moves result (after_assembly (instr_of instr) token.now token.now.kind) }
{
    match &token.kind {
        TokenKind::Text => {
            let place = in_behavior(alloc, instr)?;
            Ok(behind(Fixed::SemicolonBehavior, place))
        }
        _ => {
            if !is_symbol(token, OPEN_BRACE) {
                drop(instr);
                return Err(Stop::Refused);
            }
            Ok(in_instr(InstrGoal::AssemblyMore, instr))
        }
    }
}

/// What goes on where a string of several is wanted.
fn after_comma(instr: OpenInstr, token: &Token) -> Result<Reader, Stop>
    ensures { Moves result (after_comma (instr_of instr) token.now.kind) }
{
    match &token.kind {
        TokenKind::Text => Ok(in_instr(InstrGoal::AssemblyNext, instr)),
        _ => {
            drop(instr);
            Err(Stop::Refused)
        }
    }
}

/// What goes on behind a string of several.
#[tactic(auto, unfolding(ix_parse_state::specs::Views::of_place))]
fn after_line(alloc: Global, instr: OpenInstr, token: &Token) -> Result<Reader, Stop>
    ensures { Moves result (act token.now (assembly_next (instr_of instr))) }
{
    if is_symbol(token, COMMA) {
        return Ok(in_instr(InstrGoal::AssemblyMore, instr));
    }
    if !is_symbol(token, CLOSE_BRACE) {
        drop(instr);
        return Err(Stop::Refused);
    }
    let place = in_behavior(alloc, instr)?;
    Ok(behind(Fixed::SemicolonBehavior, place))
}
