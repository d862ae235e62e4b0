ghost use Rattle.std.specs.Prelude.{◌≡◌, Result, Ok};
ghost use Rattle.ix_tree.specs.View.{view, view_lvalue};
ghost use Rattle.ix_typing.specs.Refusals.{Refusal};
ghost use Rattle.ix_typing.specs.Expressions as T;
ghost use Rattle.ix_typing.specs.Assignments.{writable, named_place, place_of_role, pc_place, x_place, stored, stored_type, byte_place, word_place, placed};
ghost use Rattle.ix_check_parts.specs.Telling.{seen, Tells, TellsType, TellsPlace};

use crate::CheckErr;
use crate::element::{field_of, lies_in_destination, loaded_range, width_loaded};
use crate::expression::expression;
use crate::judged::{Judged, Place};
use crate::types::type_near;
use crate::words::is_instruction;
use ix_bits::{Name, Ty};
use ix_tree::{Expr, Lvalue, LvalueKind, Span, TypedLvalue, TypedLvalueKind};
use ix_typing::{Role, Setting, State, Target};
use std::alloc::Global;

/// The place that an assignment writes, with `updates` where it is read before.
pub fn place(
    alloc: Global,
    setting: Setting,
    state: &State,
    updates: bool,
    target: &Lvalue,
) -> Result<Place, CheckErr>
    ensures { TellsPlace result (placed setting state.now updates target.now.span (view_lvalue target.now.kind)) }
{
    let span = target.span;
    match &target.kind {
        LvalueKind::Name(name) => role_place(
            alloc,
            state,
            updates,
            span,
            name,
            state.names.find(name.as_str()),
        ),
        LvalueKind::Pc => pc_place(setting, state, updates, span),
        LvalueKind::X(i) => {
            let index = expression(alloc, setting, state, state.accessed, i);
            x_place(setting, state, updates, span, i, index)
        }
        LvalueKind::Mem(a, None) => {
            let at = expression(alloc, setting, state, state.accessed, a);
            byte_place(setting, state, updates, span, at)
        }
        LvalueKind::Mem(h, Some(l)) => {
            match expression(alloc, setting, state, state.accessed, h) {
                Err(error) => Err(error),
                Ok(high) => {
                    let low = expression(alloc, setting, state, high.accessed, l);
                    word_place(setting, state, updates, span, h, l, high, low)
                }
            }
        }
    }
}

/// The type of a target that is written: no path wrote it before. Where it is updated, it is read first.
fn writable(
    state: &State,
    updates: bool,
    span: Span,
    target: Target,
    ty: Ty,
) -> Result<Ty, CheckErr>
    ensures { TellsType result (writable state.now updates span target ty) }
{
    if state.written.contains(target) {
        if updates {
            Err(CheckErr::ReadAfterWrite { span })
        } else {
            Err(CheckErr::DoubleWrite { span })
        }
    } else {
        Ok(ty)
    }
}

/// The place of a name by its role.
fn role_place(
    alloc: Global,
    state: &State,
    updates: bool,
    span: Span,
    name: &Name,
    role: Option<Role>,
) -> Result<Place, CheckErr>
    ensures { TellsPlace result (place_of_role state.now updates span name.now role) }
{
    match role {
        None => Err(CheckErr::Unknown { span }),
        Some(Role::Table { .. }) => Err(CheckErr::Unknown { span }),
        Some(Role::Field(_)) => Err(CheckErr::Unknown { span }),
        Some(Role::Local { ty }) => named_place(alloc, state, span, ty, None, name),
        Some(Role::Register { number, ty }) => {
            match writable(state, updates, span, Target::Register(number), ty) {
                Err(error) => Err(error),
                Ok(ty) => named_place(alloc, state, span, ty, Some(Target::Register(number)), name),
            }
        }
    }
}

fn named_place(
    alloc: Global,
    state: &State,
    span: Span,
    ty: Ty,
    writes: Option<Target>,
    name: &Name,
) -> Result<Place, CheckErr>
    ensures { TellsPlace result (Ok (named_place state.now span name.now writes ty)) }
{
    match Name::from_text(alloc, name.as_str()) {
        Err(_) => Err(CheckErr::Memory),
        Ok(name) => Ok(Place {
            tree: TypedLvalue {
                span,
                kind: TypedLvalueKind::Name(name),
            },
            ty,
            writes,
            accessed: state.accessed,
        }),
    }
}

fn pc_place(setting: Setting, state: &State, updates: bool, span: Span) -> Result<Place, CheckErr>
    ensures { TellsPlace result (pc_place setting state.now updates span) }
{
    match writable(state, updates, span, Target::Pc, type_near(false, 32)) {
        Err(error) => Err(error),
        Ok(ty) => {
            if setting.in_spawn {
                Err(CheckErr::InSpawn { span })
            } else {
                Ok(Place {
                    tree: TypedLvalue {
                        span,
                        kind: TypedLvalueKind::Pc,
                    },
                    ty,
                    writes: Some(Target::Pc),
                    accessed: state.accessed,
                })
            }
        }
    }
}

fn x_place(
    setting: Setting,
    state: &State,
    updates: bool,
    span: Span,
    i: &Expr,
    index: Result<Judged, CheckErr>,
) -> Result<Place, CheckErr>
    ensures { (r : Result T.Judged Refusal) → Tells index r → TellsPlace result (x_place setting state.now updates span (view i.now) r) }
{
    match index {
        Err(error) => Err(error),
        Ok(index) => x_place_at(setting, state, updates, span, i, index),
    }
}

fn x_place_at(
    setting: Setting,
    state: &State,
    updates: bool,
    span: Span,
    i: &Expr,
    index: Judged,
) -> Result<Place, CheckErr>
    ensures { TellsPlace result (x_place setting state.now updates span (view i.now) (Ok (seen index))) }
{
    let is_field = lies_in_destination(field_of(state, i));
    if !is_instruction(setting.body) || updates || !is_field {
        drop(index);
        return Err(CheckErr::Index { span });
    }
    if state.written.contains(Target::Rd) {
        drop(index);
        return Err(CheckErr::DoubleWrite { span });
    }
    Ok(Place {
        tree: TypedLvalue {
            span,
            kind: TypedLvalueKind::X(index.tree),
        },
        ty: type_near(false, 32),
        writes: Some(Target::Rd),
        accessed: index.accessed,
    })
}

/// The type of what is stored: memory is written once on a path, occurs once in a behaviour, and in no `spawn`.
fn stored(
    setting: Setting,
    state: &State,
    updates: bool,
    accessed: bool,
    span: Span,
    ty: Ty,
) -> Result<Ty, CheckErr>
    ensures { TellsType result (stored setting state.now updates accessed span ty) }
{
    if state.written.contains(Target::Memory) {
        return Err(CheckErr::DoubleWrite { span });
    }
    if accessed || updates {
        return Err(CheckErr::SecondAccess { span });
    }
    if setting.in_spawn {
        return Err(CheckErr::InSpawn { span });
    }
    Ok(ty)
}

/// The type of what is stored, of this width, at an address of the type `at`.
fn stored_type(
    setting: Setting,
    state: &State,
    updates: bool,
    accessed: bool,
    span: Span,
    width: Option<u8>,
    at: Ty,
) -> Result<Ty, CheckErr>
    ensures { TellsType result (stored_type setting state.now updates accessed span width at) }
{
    if !is_instruction(setting.body) {
        return Err(CheckErr::Index { span });
    }
    match loaded_range(span, width, at) {
        Err(error) => Err(error),
        Ok(ty) => stored(setting, state, updates, accessed, span, ty),
    }
}

fn byte_place(
    setting: Setting,
    state: &State,
    updates: bool,
    span: Span,
    at: Result<Judged, CheckErr>,
) -> Result<Place, CheckErr>
    ensures { (r : Result T.Judged Refusal) → Tells at r → TellsPlace result (byte_place setting state.now updates span r) }
{
    match at {
        Err(error) => Err(error),
        Ok(at) => match stored_type(
            setting,
            state,
            updates,
            at.accessed,
            span,
            Some(8),
            at.tree.ty,
        ) {
            Err(error) => {
                drop(at);
                Err(error)
            }
            Ok(ty) => Ok(Place {
                tree: TypedLvalue {
                    span,
                    kind: TypedLvalueKind::Mem(at.tree, None),
                },
                ty,
                writes: Some(Target::Memory),
                accessed: true,
            }),
        },
    }
}

fn word_place(
    setting: Setting,
    state: &State,
    updates: bool,
    span: Span,
    h: &Expr,
    l: &Expr,
    high: Judged,
    low: Result<Judged, CheckErr>,
) -> Result<Place, CheckErr>
    ensures { (r : Result T.Judged Refusal) → Tells low r → TellsPlace result (word_place setting state.now updates span (view h.now) (view l.now) (seen high) r) }
{
    match low {
        Err(error) => {
            drop(high);
            Err(error)
        }
        Ok(low) => match stored_type(
            setting,
            state,
            updates,
            low.accessed,
            span,
            width_loaded(h, l),
            low.tree.ty,
        ) {
            Err(error) => {
                drop(high);
                drop(low);
                Err(error)
            }
            Ok(ty) => Ok(Place {
                tree: TypedLvalue {
                    span,
                    kind: TypedLvalueKind::Mem(high.tree, Some(low.tree)),
                },
                ty,
                writes: Some(Target::Memory),
                accessed: true,
            }),
        },
    }
}
