ghost use Rattle.std.specs.Prelude.{◌≡◌, map};
ghost use Rattle.ix_tree.specs.Productions.{table_tree};
ghost use Rattle.ix_tree.specs.View.{view, view_state};
ghost use Rattle.ix_tree.specs.Machine.{act, begin_state, after_register, table_length, table_end};
ghost use Rattle.ix_parse_state.specs.Views.{open_of, state_of, named_of};
ghost use Rattle.ix_parse_state.specs.Moves.{Moves};

use crate::section::end_section;
use ix_bits::{List, Name};
use ix_parse_state::frame::{ClosingFrame, Frame, NamedState, Open, OpenState, TypeFrame};
use ix_parse_state::look::{copy, is_symbol, is_word};
use ix_parse_state::node::between;
use ix_parse_state::reader::{behind, in_text, in_type};
use ix_parse_state::sign::{CLOSE_BRACE, CONST, REGISTER, SEMICOLON};
use ix_parse_state::stack::single;
use ix_parse_state::state::{ExprGoal, Fixed, Goal, Place, Reader, TextGoal, TypeGoal};
use ix_parse_state::stop::Stop;
use ix_parse_state::types::begin_type;
use ix_tree::{Expr, SectionKind, State, StateKind, Token, TokenKind, TypeText};
use std::alloc::Global;

/// What goes on where a register or a table may begin.
#[tactic(auto, unfolding(ix_tree::specs::Machine::begin_state))]
pub fn begin_state(
    alloc: Global,
    within: Open,
    before: List<State>,
    token: &Token,
) -> Result<Reader, Stop>
    ensures { Moves result (begin_state (open_of within) (map view_state before) token.now) }
{
    if is_symbol(token, CLOSE_BRACE) {
        return Ok(end_section(within, SectionKind::States(before), token)?);
    }
    let Ok(first) = copy(alloc, token) else {
        drop(within);
        return Err(Stop::Memory);
    };
    let state = OpenState {
        within,
        before,
        first,
    };
    if is_word(token, REGISTER) {
        return Ok(in_text(TextGoal::StateWord(state)));
    }
    if is_word(token, CONST) {
        let stack = single(alloc, Frame::Type(TypeFrame::Table(state)))?;
        return Ok(in_type(TypeGoal::Typing(0), stack));
    }
    drop(state);
    Err(Stop::Refused)
}

/// What goes on behind `register`.
pub fn after_register(alloc: Global, state: OpenState, token: &Token) -> Result<Reader, Stop>
    ensures { Moves result (after_register (state_of state) token.now) }
{
    if is_word(token, CONST) {
        let stack = single(alloc, Frame::Type(TypeFrame::Table(state)))?;
        return Ok(in_type(TypeGoal::Typing(0), stack));
    }
    let stack = single(alloc, Frame::Type(TypeFrame::Register(state)))?;
    begin_type(alloc, 0, stack, token)
}

/// What goes on where a table's length is wanted.
#[tactic(auto, unfolding(ix_parse_state::specs::Views::of_place))]
pub fn table_length(alloc: Global, table: NamedState, token: &Token) -> Result<Reader, Stop>
    ensures { Moves result (act token.now (table_length (named_of table))) }
{
    match &token.kind {
        TokenKind::Unsized(_, bits) => {
            let entries = ClosingFrame::Entries(table, bits.raw, List::new(alloc));
            let stack = single(alloc, Frame::Closing(entries))?;
            let entry = Goal::Expr(ExprGoal::Want(0));
            Ok(behind(Fixed::SquareEnd, Place::Inside(entry, stack)))
        }
        _ => {
            drop(table);
            Err(Stop::Refused)
        }
    }
}

/// What goes on behind the entries of a table.
pub fn table_end(
    table: NamedState,
    length: u128,
    entries: List<Expr>,
    token: &Token,
) -> Result<Reader, Stop>
    ensures { Moves result (act token.now (table_end (named_of table) length (map view entries))) }
{
    if !is_symbol(token, SEMICOLON) {
        drop(table);
        return Err(Stop::Refused);
    }
    let NamedState { state, ty, name } = table;
    let OpenState {
        within,
        mut before,
        first,
    } = state;
    match before.push(whole_table(first, ty, name, length, entries, token)) {
        Ok(()) => Ok(in_text(TextGoal::States(within, before))),
        Err(_) => {
            drop(within);
            Err(Stop::Memory)
        }
    }
}

/// The tree of a table, by its first and last token.
fn whole_table(
    first: Token,
    ty: TypeText,
    name: Name,
    length: u128,
    entries: List<Expr>,
    last: &Token,
) -> State
    ensures { view_state result ≡ table_tree first ty name length (map view entries) last.now }
{
    State {
        span: between(&first, last),
        name,
        ty,
        kind: StateKind::Table { length, entries },
    }
}
