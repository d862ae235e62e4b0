ghost use Rattle.std.specs.Prelude.{◌≡◌, ℕ, ◌+◌, List, [], map, Some, Result, Ok, OnOk, IfOk, IfErr};
ghost use Rattle.ix_tree.specs.TypedTrees.{TypedExprTree, TypedStateKindTree, tk_register};
ghost use Rattle.ix_tree.specs.View.{view, view_state, view_state_kind, view_section, view_section_kind};
ghost use Rattle.ix_typing.specs.declared.state.State.{State};
ghost use Rattle.ix_typing.specs.Refusals.{Refusal, and_then, Step, each};
ghost use Rattle.ix_typing.specs.Expressions as T;
ghost use Rattle.ix_typing.specs.Assignments.{fits_into};
ghost use Rattle.ix_typing.specs.Texts.{role_by, declared_state, declared_states, states_of, globals, is_numbered, constant, entries_of, state_kind, judged_state};
ghost use Rattle.ix_check_parts.specs.Telling.{Tells};
ghost use Rattle.ix_check_parts.specs.StateTelling.{TellsConstant, TellsConstants, TellsStateKind, TellsState, TellsStates};

use crate::CheckErr;
use crate::assign::{fits_into, span_of};
use crate::expression::expression;
use crate::judged::Judged;
use crate::types::{nearest_type, written_type};
use ix_bits::{List, Name, Ty, put};
use ix_tree::{
    Expr, Section, SectionKind, Span, State as StateText, StateKind, TypedExpr, TypedState,
    TypedStateKind,
};
use ix_typing::{Body, Names, Role, Setting, Shape, State};
use std::alloc::Global;

/// The registers and tables of a text, of which each name stands for its first one.
pub fn globals(alloc: Global, sections: &[Section]) -> Result<Names, CheckErr>
    ensures ok { IfOk result (λ n. n ≡ globals [] (map view_section sections.now)) }
    ensures err { IfErr result (λ e. e ≡ CheckErr.Memory) }
{
    let mut names = Names::new(alloc);
    for section in sections {
        match declare_section(alloc, &mut names, &section.kind) {
            Err(error) => return Err(error),
            Ok(()) => {}
        }
    }
    Ok(names)
}

fn declare_section(alloc: Global, names: &mut Names, kind: &SectionKind) -> Result<(), CheckErr>
    ensures ok { OnOk result (names.new ≡ declared_states names.old (states_of (view_section_kind kind.now))) }
    ensures err { IfErr result (λ e. e ≡ CheckErr.Memory) }
{
    match kind {
        SectionKind::States(all) => declare_states(alloc, names, all.as_slice()),
        SectionKind::Instructions(_) => Ok(()),
        SectionKind::Always(_) => Ok(()),
    }
}

fn declare_states(alloc: Global, names: &mut Names, all: &[StateText]) -> Result<(), CheckErr>
    ensures ok { OnOk result (names.new ≡ declared_states names.old (map view_state all.now)) }
    ensures err { IfErr result (λ e. e ≡ CheckErr.Memory) }
{
    for state in all {
        match declare_state(alloc, names, state) {
            Err(error) => return Err(error),
            Ok(()) => {}
        }
    }
    Ok(())
}

fn declare_state(alloc: Global, names: &mut Names, state: &StateText) -> Result<(), CheckErr>
    ensures ok { OnOk result (names.new ≡ declared_state names.old (view_state state.now)) }
    ensures err { IfErr result (λ e. e ≡ CheckErr.Memory) }
{
    match names.find(state.name.as_str()) {
        Some(_) => Ok(()),
        None => {
            let role = role_by(names.len(), nearest_type(state.ty.kind), &state.kind);
            match Name::from_text(alloc, state.name.as_str()) {
                Err(_) => Err(CheckErr::Memory),
                Ok(name) => match names.declare(name, role) {
                    Err(_) => Err(CheckErr::Memory),
                    Ok(()) => Ok(()),
                },
            }
        }
    }
}

fn role_by(number: usize, ty: Ty, kind: &StateKind) -> Role
    ensures { result ≡ role_by number ty (view_state_kind kind.now) }
{
    match kind {
        StateKind::Register(_) => Role::Register { number, ty },
        StateKind::Table { length, entries: _ } => Role::Table {
            number,
            shape: Shape {
                ty,
                length: *length,
            },
        },
    }
}

// Whether the name stands for the register or table of this number.
fn is_numbered(role: Option<Role>, k: u128) -> bool
    ensures { result ≡ is_numbered role k }
{
    match role {
        None => false,
        Some(Role::Register { number, ty: _ }) => number as u128 == k,
        Some(Role::Table { number, shape: _ }) => number as u128 == k,
        Some(Role::Field(_)) => false,
        Some(Role::Local { .. }) => false,
    }
}

/// The registers and tables of a section with their types.
pub fn states(
    alloc: Global,
    state: &State,
    all: List<StateText>,
) -> Result<List<TypedState>, CheckErr>
    ensures { TellsStates result (each (judged_state state.now) (map view_state all) 0) }
{
    let mut out = Vec::new(alloc);
    let mut k = 0u128;
    for text in all.into_vec() {
        match one_state(alloc, state, k, text) {
            Err(error) => return Err(error),
            Ok(typed) => match put(&mut out, typed) {
                Err(_) => return Err(CheckErr::Memory),
                Ok(()) => {}
            },
        }
        k += 1;
    }
    Ok(List::from_vec(out))
}

fn one_state(alloc: Global, state: &State, k: u128, text: StateText) -> Result<TypedState, CheckErr>
    ensures { TellsState result (k + 1) (judged_state state.now (view_state text) k) }
{
    match written_type(text.ty) {
        Err(error) => {
            drop(text);
            Err(error)
        }
        Ok(ty) => {
            if is_numbered(state.names.find(text.name.as_str()), k) {
                let kind = state_kind(alloc, state, text.span, ty, &text.kind);
                with_kind(text, kind)
            } else {
                let span = text.span;
                drop(text);
                Err(CheckErr::Twice { span })
            }
        }
    }
}

fn with_kind(
    text: StateText,
    kind: Result<TypedStateKind, CheckErr>,
) -> Result<TypedState, CheckErr>
    ensures { (k : ℕ) (r : Result TypedStateKindTree Refusal) → TellsStateKind kind r → TellsState result (k + 1) (and_then r (λ t. Ok (record { item = record { span = text.span; name = text.name; ty = text.ty; kind = t }; after = k + 1 }))) }
{
    match kind {
        Err(error) => {
            drop(text);
            Err(error)
        }
        Ok(kind) => Ok(TypedState {
            span: text.span,
            name: text.name,
            ty: text.ty,
            kind,
        }),
    }
}

fn state_kind(
    alloc: Global,
    state: &State,
    span: Span,
    ty: Ty,
    kind: &StateKind,
) -> Result<TypedStateKind, CheckErr>
    ensures { TellsStateKind result (state_kind state.now span ty (view_state_kind kind.now)) }
{
    match kind {
        StateKind::Register(None) => Ok(TypedStateKind::Register(None)),
        StateKind::Register(Some(value)) => {
            let value = constant(alloc, state, ty, value);
            register_of(value)
        }
        StateKind::Table {
            length,
            entries: all,
        } => {
            let typed = entries(alloc, state, ty, all.as_slice());
            table_of(span, all.len(), *length, typed)
        }
    }
}

fn register_of(value: Result<TypedExpr, CheckErr>) -> Result<TypedStateKind, CheckErr>
    ensures { (st : State) (r : Result (Step State TypedExprTree) Refusal) → TellsConstant value st r → TellsStateKind result (and_then r (λ k. Ok (tk_register (Some k.item)))) }
{
    match value {
        Err(error) => Err(error),
        Ok(value) => Ok(TypedStateKind::Register(Some(value))),
    }
}

fn table_of(
    span: Span,
    count: usize,
    length: u128,
    typed: Result<Vec<TypedExpr>, CheckErr>,
) -> Result<TypedStateKind, CheckErr>
    ensures { (st : State) (r : Result (Step State (List TypedExprTree)) Refusal) → TellsConstants typed st r → TellsStateKind result (entries_of span count length r) }
{
    match typed {
        Err(error) => Err(error),
        Ok(typed) => {
            if count as u128 == length {
                Ok(TypedStateKind::Table {
                    length,
                    entries: List::from_vec(typed),
                })
            } else {
                Err(CheckErr::Rom { span })
            }
        }
    }
}

fn entries(alloc: Global, state: &State, ty: Ty, all: &[Expr]) -> Result<Vec<TypedExpr>, CheckErr>
    ensures { TellsConstants result state.now (each (constant ty) (map view all.now) state.now) }
{
    let mut out = Vec::new(alloc);
    for entry in all {
        match constant(alloc, state, ty, entry) {
            Err(error) => return Err(error),
            Ok(entry) => match put(&mut out, entry) {
                Err(_) => return Err(CheckErr::Memory),
                Ok(()) => {}
            },
        }
    }
    Ok(out)
}

// A constant that goes into the type.
fn constant(alloc: Global, state: &State, ty: Ty, value: &Expr) -> Result<TypedExpr, CheckErr>
    ensures { TellsConstant result state.now (constant ty (view value.now) state.now) }
{
    let setting = Setting {
        body: Body::Constant,
        in_spawn: false,
        below_if: false,
    };
    let judged = expression(alloc, setting, state, false, value);
    embedded(span_of(value), ty, judged)
}

fn embedded(at: Span, ty: Ty, value: Result<Judged, CheckErr>) -> Result<TypedExpr, CheckErr>
    ensures { (st : State) (r : Result T.Judged Refusal) → Tells value r → TellsConstant result st (and_then r (λ v. and_then (fits_into at ty v.ty) (λ t. Ok (record { item = v.tree; after = st })))) }
{
    match value {
        Err(error) => Err(error),
        Ok(value) => match fits_into(at, ty, value.tree.ty) {
            Err(error) => {
                drop(value);
                Err(error)
            }
            Ok(_) => Ok(value.tree),
        },
    }
}
