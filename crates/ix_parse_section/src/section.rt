ghost use Rattle.std.specs.Prelude.{◌≡◌, map, IfOk};
ghost use Rattle.ix_tree.specs.Productions.{section_tree, text_tree};
ghost use Rattle.ix_tree.specs.View.{view_block, view_instr, view_section, view_section_kind, view_tree};
ghost use Rattle.ix_tree.specs.Machine.{act, begin_always, begin_section, begin_instr, after_section, starting, set_name, always_brace, step};
ghost use Rattle.ix_parse_state.specs.Views.{of_text, open_of, reader_of};
ghost use Rattle.ix_parse_state.specs.Moves.{Moves};

use crate::entry::{after_register, begin_state, table_end, table_length};
use ix_bits::{List, Memory, Name};
use ix_parse_state::frame::{BodyFrame, Frame, Open, OpenAlways, OpenInstr};
use ix_parse_state::look::{copy, is_symbol, is_word};
use ix_parse_state::node::between;
use ix_parse_state::reader::{behind, in_stmt, in_text};
use ix_parse_state::sign::{
    ALWAYS, ARCHITECTURAL_STATE, CLOSE_BRACE, INSTRUCTION_SET, INSTRUCTIONS, OPEN_BRACE,
};
use ix_parse_state::stack::single;
use ix_parse_state::state::{Fixed, InstrGoal, Place, Reader, StmtGoal, TextGoal};
use ix_parse_state::stop::Stop;
use ix_tree::{BlockText, Instr, Section, SectionKind, Token, TokenKind, Tree};
use std::alloc::Global;

/// What the token leads to in the text and its sections.
#[tactic(auto, unfolding(ix_tree::specs::Machine::step))]
pub fn text_step(alloc: Global, goal: TextGoal, token: &Token) -> Result<Reader, Stop>
    ensures { Moves result (step (of_text goal) token.now) }
{
    match goal {
        TextGoal::Starting => begin_text(alloc, token),
        TextGoal::SetName(first) => after_instruction_set(alloc, first, token),
        TextGoal::Sections(first, name, sections) => {
            begin_section(alloc, first, name, sections, token)
        }
        TextGoal::Ended(tree) => {
            drop(tree);
            Err(Stop::Refused)
        }
        TextGoal::States(within, states) => begin_state(alloc, within, states, token),
        TextGoal::Instructions(within, before) => begin_instr(alloc, within, before, token),
        TextGoal::Blocks(within, blocks) => begin_always(alloc, within, blocks, token),
        TextGoal::AlwaysBrace(within, before, first, name) => {
            begin_body(alloc, within, before, first, name, token)
        }
        TextGoal::StateWord(state) => after_register(alloc, state, token),
        TextGoal::TableLength(table) => table_length(alloc, table, token),
        TextGoal::TableEnd(table, length, entries) => table_end(table, length, entries, token),
    }
}

/// What the first token of a text leads to.
fn begin_text(alloc: Global, token: &Token) -> Result<Reader, Stop>
    ensures { Moves result (act token.now starting) }
{
    if !is_word(token, INSTRUCTION_SET) {
        return Err(Stop::Refused);
    }
    Ok(in_text(TextGoal::SetName(copy(alloc, token)?)))
}

/// What goes on behind the first token of a text: its name.
#[tactic(auto, unfolding(ix_parse_state::specs::Views::of_place))]
fn after_instruction_set(alloc: Global, first: Token, token: &Token) -> Result<Reader, Stop>
    ensures { Moves result (act token.now (set_name first)) }
{
    match &token.kind {
        TokenKind::Name(name) => {
            let name = Name::from_text(alloc, name.as_str())?;
            let sections = TextGoal::Sections(first, name, List::new(alloc));
            Ok(behind(Fixed::Extends, Place::Text(sections)))
        }
        _ => Err(Stop::Refused),
    }
}

/// What goes on where a section may begin.
#[tactic(auto, unfolding(ix_tree::specs::Machine::begin_section, ix_parse_state::specs::Views::of_place))]
fn begin_section(
    alloc: Global,
    first: Token,
    name: Name,
    sections: List<Section>,
    token: &Token,
) -> Result<Reader, Stop>
    ensures { Moves result (begin_section first name (map view_section sections) token.now) }
{
    if is_symbol(token, CLOSE_BRACE) {
        return Ok(in_text(TextGoal::Ended(whole_text(first, name, sections, token))));
    }
    let Ok(word) = copy(alloc, token) else {
        drop(first);
        return Err(Stop::Memory);
    };
    let within = Open {
        first,
        name,
        sections,
        word,
    };
    if is_word(token, ARCHITECTURAL_STATE) {
        let states = TextGoal::States(within, List::new(alloc));
        return Ok(behind(Fixed::Brace, Place::Text(states)));
    }
    if is_word(token, INSTRUCTIONS) {
        let instructions = TextGoal::Instructions(within, List::new(alloc));
        return Ok(behind(Fixed::Brace, Place::Text(instructions)));
    }
    if is_word(token, ALWAYS) {
        let blocks = TextGoal::Blocks(within, List::new(alloc));
        return Ok(behind(Fixed::Brace, Place::Text(blocks)));
    }
    drop(within);
    Err(Stop::Refused)
}

/// The tree of a text, whose last token this is.
fn whole_text(first: Token, name: Name, sections: List<Section>, last: &Token) -> Tree
    ensures { view_tree result ≡ text_tree first name (map view_section sections) last.now }
{
    Tree {
        span: between(&first, last),
        name,
        sections,
    }
}

/// The tree of a section, by its first and last token.
fn whole_section(word: &Token, kind: SectionKind, last: &Token) -> Section
    ensures { view_section result ≡ section_tree word.now (view_section_kind kind) last.now }
{
    Section {
        span: between(word, last),
        kind,
    }
}

/// The reader behind a section, whose last token this is.
pub fn end_section(within: Open, kind: SectionKind, last: &Token) -> Result<Reader, Memory>
    ensures { IfOk result (λ r. reader_of r ≡ after_section (open_of within) (section_tree within.word (view_section_kind kind) last.now)) }
{
    let Open {
        first,
        name,
        mut sections,
        word,
    } = within;
    let section = whole_section(&word, kind, last);
    drop(word);
    sections.push(section)?;
    Ok(in_text(TextGoal::Sections(first, name, sections)))
}

/// What goes on where an instruction may begin.
#[tactic(auto, unfolding(ix_parse_state::specs::Views::of_place))]
fn begin_instr(
    alloc: Global,
    within: Open,
    before: List<Instr>,
    token: &Token,
) -> Result<Reader, Stop>
    ensures { Moves result (begin_instr (open_of within) (map view_instr before) token.now token.now.kind) }
{
    match &token.kind {
        TokenKind::Name(name) => {
            let Ok(name) = Name::from_text(alloc, name.as_str()) else {
                drop(within);
                return Err(Stop::Memory);
            };
            let Ok(first) = copy(alloc, token) else {
                drop(within);
                return Err(Stop::Memory);
            };
            let instr = OpenInstr {
                within,
                before,
                first,
                name,
                pieces: List::new(alloc),
            };
            Ok(behind(Fixed::BraceEncoding, Place::Instr(InstrGoal::Piece, instr)))
        }
        _ => {
            if !is_symbol(token, CLOSE_BRACE) {
                drop(within);
                return Err(Stop::Refused);
            }
            Ok(end_section(within, SectionKind::Instructions(before), token)?)
        }
    }
}

/// What goes on where an always-block may begin.
pub fn begin_always(
    alloc: Global,
    within: Open,
    blocks: List<BlockText>,
    token: &Token,
) -> Result<Reader, Stop>
    ensures { Moves result (begin_always (open_of within) (map view_block blocks) token.now token.now.kind) }
{
    match &token.kind {
        TokenKind::Name(name) => {
            let Ok(name) = Name::from_text(alloc, name.as_str()) else {
                drop(within);
                return Err(Stop::Memory);
            };
            let Ok(first) = copy(alloc, token) else {
                drop(within);
                return Err(Stop::Memory);
            };
            Ok(in_text(TextGoal::AlwaysBrace(within, blocks, first, name)))
        }
        _ => {
            if !is_symbol(token, CLOSE_BRACE) {
                drop(within);
                return Err(Stop::Refused);
            }
            Ok(end_section(within, SectionKind::Always(blocks), token)?)
        }
    }
}

/// What goes on behind the name of an always-block: its body.
fn begin_body(
    alloc: Global,
    within: Open,
    before: List<BlockText>,
    first: Token,
    name: Name,
    token: &Token,
) -> Result<Reader, Stop>
    ensures { Moves result (act token.now (always_brace (open_of within) (map view_block before) first name)) }
{
    if !is_symbol(token, OPEN_BRACE) {
        drop(within);
        drop(first);
        return Err(Stop::Refused);
    }
    let block = OpenAlways {
        within,
        before,
        first,
        name,
    };
    let stack = single(alloc, Frame::Body(BodyFrame::Always(block)))?;
    let body = StmtGoal::Item(0, copy(alloc, token)?, List::new(alloc));
    Ok(in_stmt(body, stack))
}
