ghost use Rattle.std.specs.Prelude.{◌≡◌, Result, Ok, OnOk, IfErr};
ghost use Rattle.ix_tree.specs.View.{view, view_assign};
ghost use Rattle.ix_tree.specs.TypedView.{typed_view, typed_place};
ghost use Rattle.ix_typing.specs.Refusals.{Refusal};
ghost use Rattle.ix_typing.specs.Expressions as T;
ghost use Rattle.ix_typing.specs.Assignments.{is_update, span_of, assigned, goes_into, fits_into, behind_write, judged_assign};
ghost use Rattle.ix_check_parts.specs.Telling.{seen_place, Tells, TellsType, TellsAssign};

use crate::CheckErr;
use crate::expression::expression;
use crate::judged::{Judged, Place};
use crate::node::binary_type;
use crate::target::place;
use crate::types::goes_into;
use ix_bits::{BinOp, Ty};
use ix_tree::{Assign, Expr, Span, TypedAssign};
use ix_typing::{Setting, State, Target};
use std::alloc::Global;

/// The assignment with its types: first its target, then its value, then whether the value goes into the target.
pub fn assignment(
    alloc: Global,
    setting: Setting,
    state: &mut State,
    assign: &Assign,
) -> Result<TypedAssign, CheckErr>
    ensures { TellsAssign result state.new (judged_assign setting (view_assign assign.now) state.old) }
{
    match place(alloc, setting, state, is_update(assign.op), &assign.target) {
        Err(error) => Err(error),
        Ok(place) => {
            let value = expression(alloc, setting, state, place.accessed, &assign.value);
            assigned(
                state,
                assign.span,
                assign.op,
                span_of(&assign.value),
                place,
                value,
            )
        }
    }
}

/// Whether the place is read before it is written.
fn is_update(op: Option<BinOp>) -> bool
    ensures { result ≡ is_update op }
{
    match op {
        None => false,
        Some(_) => true,
    }
}

/// The place of an expression in the text.
pub fn span_of(e: &Expr) -> Span
    ensures { result ≡ span_of (view e.now) }
{
    e.span
}

fn assigned(
    state: &mut State,
    span: Span,
    op: Option<BinOp>,
    at: Span,
    place: Place,
    value: Result<Judged, CheckErr>,
) -> Result<TypedAssign, CheckErr>
    ensures { (r : Result T.Judged Refusal) → Tells value r → TellsAssign result state.new (assigned state.old span op at (seen_place place) r) }
{
    match value {
        Err(error) => {
            drop(place);
            Err(error)
        }
        Ok(value) => match result_into(span, op, at, place.ty, value.tree.ty) {
            Err(error) => {
                drop(place);
                drop(value);
                Err(error)
            }
            Ok(_) => written(state, span, op, place, value),
        },
    }
}

/// Whether a value of the type `value` may be assigned to a place of the type `place`: after an operator it is cast.
fn result_into(
    span: Span,
    op: Option<BinOp>,
    at: Span,
    place: Ty,
    value: Ty,
) -> Result<Ty, CheckErr>
    ensures { TellsType result (goes_into span op at place value) }
{
    match op {
        None => fits_into(at, place, value),
        Some(op) => match binary_type(span, op, place, value) {
            Err(error) => Err(error),
            Ok(_) => Ok(place),
        },
    }
}

/// Whether each number of the type `value` is one of the type `place`: Narrow at the value.
pub fn fits_into(at: Span, place: Ty, value: Ty) -> Result<Ty, CheckErr>
    ensures { TellsType result (fits_into at place value) }
{
    if goes_into(value, place) {
        Ok(place)
    } else {
        Err(CheckErr::Narrow { span: at })
    }
}

fn written(
    state: &mut State,
    span: Span,
    op: Option<BinOp>,
    place: Place,
    value: Judged,
) -> Result<TypedAssign, CheckErr>
    ensures { TellsAssign result state.new (Ok (record { item = record { span = span; target = typed_place place.tree; op = op; value = typed_view value.tree }; after = behind_write state.old place.writes value.accessed })) }
{
    match write(state, place.writes, value.accessed) {
        Err(error) => {
            drop(place);
            drop(value);
            Err(error)
        }
        Ok(()) => Ok(TypedAssign {
            span,
            target: place.tree,
            op,
            value: value.tree,
        }),
    }
}

fn write(state: &mut State, writes: Option<Target>, accessed: bool) -> Result<(), CheckErr>
    ensures ok { OnOk result (state.new ≡ behind_write state.old writes accessed) }
    ensures err { IfErr result (λ e. e ≡ CheckErr.Memory) }
{
    state.accessed = accessed;
    match writes {
        None => Ok(()),
        Some(target) => match state.written.push(target) {
            Err(_) => Err(CheckErr::Memory),
            Ok(()) => Ok(()),
        },
    }
}
