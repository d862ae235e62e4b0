ghost use Rattle.std.specs.Prelude.{◌≡◌, ◌≤◌, [], ◌∷◌, ◌++◌, Some, None, option_map, map, IfOk, IfErr};
ghost use Rattle.ix_parse_state.specs.Parts.{part_of};
ghost use Rattle.ix_tree.specs.Productions.{decl, register_tree};
ghost use Rattle.ix_tree.specs.View.{view_decl, view_state};
ghost use Rattle.ix_tree.specs.Machine.{after_value, after_decl, go, states};
ghost use Rattle.ix_tree.specs.Machine as M;
ghost use Rattle.ix_parse_state.specs.Views.{stack_of, decl_frame, open_of, of_stmt};
ghost use Rattle.ix_parse_state.specs.Moves.{Moves, GoesTo, StopsBy};

use crate::enter::drop_frame;
use ix_bits::{List, Memory, Name};
use ix_parse_state::block::locals;
use ix_parse_state::frame::{DeclFrame, Frame, NamedState, OpenState};
use ix_parse_state::look::{is_symbol, level};
use ix_parse_state::node::between;
use ix_parse_state::part::Part;
use ix_parse_state::reader::{in_stmt, in_text};
use ix_parse_state::sign::{COMMA, SEMICOLON};
use ix_parse_state::stack::pop;
use ix_parse_state::state::{Reader, StmtGoal, TextGoal};
use ix_parse_state::stop::Stop;
use ix_tree::{Decl, Span, State, StateKind, Token, TypeText};
use std::alloc::Global;

/// What goes on behind the value of a name.
pub fn after_value(
    alloc: Global,
    first: Token,
    name: Name,
    value: Part,
    stack: Vec<Frame>,
    token: &Token,
) -> Result<Reader, Stop>
    ensures { Moves result (after_value first name (Some (part_of value)) (stack_of stack.items) token.now) }
{
    after_named(&first, name, Some(value), stack, token)
}

/// What goes on behind a name without a value.
pub fn after_name(
    first: &Token,
    name: Name,
    stack: Vec<Frame>,
    token: &Token,
) -> Result<Reader, Stop>
    ensures { Moves result (after_value first.now name None (stack_of stack.items) token.now) }
{
    after_named(first, name, None, stack, token)
}

/// What goes on behind a name and its value, if it has one.
fn after_named(
    first: &Token,
    name: Name,
    value: Option<Part>,
    stack: Vec<Frame>,
    token: &Token,
) -> Result<Reader, Stop>
    ensures { Moves result (after_value first.now name (option_map part_of value) (stack_of stack.items) token.now) }
{
    match pop(stack) {
        Some((frame, stack)) => match frame {
            Frame::Decl(frame) => after_named_of(first, name, value, frame, stack, token),
            other => {
                drop_frame(other);
                drop(stack);
                drop(name);
                drop(value);
                Err(Stop::Refused)
            }
        },
        None => {
            drop(name);
            drop(value);
            Err(Stop::Refused)
        }
    }
}

/// What goes on behind a name that is read for this, and its value, if it has one.
fn after_named_of(
    first: &Token,
    name: Name,
    value: Option<Part>,
    frame: DeclFrame,
    stack: Vec<Frame>,
    token: &Token,
) -> Result<Reader, Stop>
    ensures { Moves result (after_value first.now name (option_map part_of value) (decl_frame frame ∷ stack_of stack.items) token.now) }
{
    match frame {
        DeclFrame::Locals(depth, ty, decls) => {
            let decl = declared(first, name, value);
            after_decl(depth, decl, ty, decls, stack, token)
        }
        DeclFrame::Register(named) => {
            drop(stack);
            if !is_symbol(token, SEMICOLON) {
                drop(name);
                drop(value);
                drop(named);
                return Err(Stop::Refused);
            }
            drop(name);
            end_register(named, value, token)
        }
    }
}

/// The states behind a register, whose last token this is.
fn end_register(named: NamedState, value: Option<Part>, last: &Token) -> Result<Reader, Stop>
    ensures { Moves result (go 0 (states (open_of named.state.within) (map view_state named.state.before ++ register_tree named.state.first named.ty named.name (option_map part_of value) last.now ∷ []))) }
{
    let NamedState { state, ty, name } = named;
    let OpenState {
        within,
        before,
        first,
    } = state;
    let register = register(&first, ty, name, value, last);
    drop(first);
    match with_state(before, register) {
        Ok(states) => Ok(in_text(TextGoal::States(within, states))),
        Err(Memory) => {
            drop(within);
            Err(Stop::Memory)
        }
    }
}

/// What goes on behind a local's declaration.
fn after_decl(
    depth: u32,
    decl: Decl,
    ty: TypeText,
    decls: List<Decl>,
    stack: Vec<Frame>,
    token: &Token,
) -> Result<Reader, Stop>
    ensures { Moves result (after_decl depth (view_decl decl) ty (map view_decl decls) (stack_of stack.items) token.now) }
{
    match decl_goal(depth, decl, ty, decls, token) {
        Ok(goal) => Ok(in_stmt(goal, stack)),
        Err(stop) => {
            drop(stack);
            Err(stop)
        }
    }
}

/// What is wanted behind a local's declaration.
fn decl_goal(
    depth: u32,
    decl: Decl,
    ty: TypeText,
    decls: List<Decl>,
    token: &Token,
) -> Result<StmtGoal, Stop>
    ensures ok { (k : M.Stack) → IfOk result (λ g. GoesTo (of_stmt g k) (after_decl depth (view_decl decl) ty (map view_decl decls) k token.now)) }
    ensures err { (k : M.Stack) → IfErr result (λ e. StopsBy e (after_decl depth (view_decl decl) ty (map view_decl decls) k token.now)) }
{
    if is_symbol(token, COMMA) {
        return match leveled(depth, decls, decl) {
            Ok(decls) => Ok(StmtGoal::Naming(depth, ty, decls)),
            Err(stop) => Err(stop),
        };
    }
    if is_symbol(token, SEMICOLON) {
        return match leveled(depth, decls, decl) {
            Ok(decls) => Ok(StmtGoal::Done(locals(ty, decls, token))),
            Err(stop) => Err(stop),
        };
    }
    drop(decl);
    drop(decls);
    Err(Stop::Refused)
}

/// The declarations and one more, behind a token that stands as deep as their statement.
fn leveled(depth: u32, decls: List<Decl>, decl: Decl) -> Result<List<Decl>, Stop>
    ensures level { IfOk result (λ _. depth ≤ 64) }
    ensures ok { IfOk result (λ ds. map view_decl ds ≡ map view_decl decls ++ view_decl decl ∷ []) }
    ensures err { IfErr result (λ e. (z : M.State) → StopsBy e (go depth z)) }
{
    match level(depth) {
        Ok(_) => match with_decl(decls, decl) {
            Ok(decls) => Ok(decls),
            Err(Memory) => Err(Stop::Memory),
        },
        Err(stop) => {
            drop(decls);
            drop(decl);
            Err(stop)
        }
    }
}

/// A local's declaration.
fn declared(first: &Token, name: Name, value: Option<Part>) -> Decl
    ensures { view_decl result ≡ decl first.now name (option_map part_of value) }
{
    match value {
        None => Decl {
            span: first.span,
            name,
            value: None,
        },
        Some(part) => Decl {
            span: Span {
                from: first.span.from,
                to: part.to,
            },
            name,
            value: Some(part.tree),
        },
    }
}

/// A register.
fn register(first: &Token, ty: TypeText, name: Name, value: Option<Part>, last: &Token) -> State
    ensures { view_state result ≡ register_tree first.now ty name (option_map part_of value) last.now }
{
    let value = match value {
        None => None,
        Some(part) => Some(part.tree),
    };
    State {
        span: between(first, last),
        name,
        ty,
        kind: StateKind::Register(value),
    }
}

/// The declarations and one more.
#[tactic(auto, using(ix_parse_state::proofs::Blocks::map_push))]
fn with_decl(mut decls: List<Decl>, decl: Decl) -> Result<List<Decl>, Memory>
    ensures { IfOk result (λ ds. map view_decl ds ≡ map view_decl decls ++ view_decl decl ∷ []) }
{
    match decls.push(decl) {
        Ok(()) => Ok(decls),
        Err(_) => Err(Memory),
    }
}

/// The states and one more.
#[tactic(auto, using(ix_parse_state::proofs::Blocks::map_push))]
fn with_state(mut states: List<State>, state: State) -> Result<List<State>, Memory>
    ensures { IfOk result (λ rs. map view_state rs ≡ map view_state states ++ view_state state ∷ []) }
{
    match states.push(state) {
        Ok(()) => Ok(states),
        Err(_) => Err(Memory),
    }
}
