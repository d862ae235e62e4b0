ghost use Rattle.std.specs.Prelude.{◌≡◌, ◌≤◌, length, map, Result, Ok, OnOk, IfErr};
ghost use Rattle.ix_tree.specs.View.{view_decl, view_option};
ghost use Rattle.ix_tree.specs.TypedView.{typed_option};
ghost use Rattle.ix_typing.specs.Refusals.{Refusal};
ghost use Rattle.ix_typing.specs.Expressions as T;
ghost use Rattle.ix_typing.specs.Statements.{judged_decls, judged_decl, valued, initial, declared, with_local};
ghost use Rattle.ix_check_parts.specs.Telling.{Tells, TellsDecl, TellsDecls};

use crate::CheckErr;
use crate::assign::{fits_into, span_of};
use crate::expression::expression;
use crate::judged::Judged;
use ix_bits::{Name, Ty, put};
use ix_tree::{Decl, Span, TypedDecl, TypedExpr};
use ix_typing::{Role, Setting, State};
use std::alloc::Global;

/// The declarations of locals of a type, each visible behind its own.
pub fn declarations(
    alloc: Global,
    setting: Setting,
    state: &mut State,
    ty: Ty,
    decls: &[Decl],
) -> Result<Vec<TypedDecl>, CheckErr>
    ensures { TellsDecls result state.new (judged_decls setting ty (map view_decl decls.now) state.old) }
{
    let mut out = Vec::new(alloc);
    for decl in decls {
        match declaration(alloc, setting, state, ty, decl) {
            Err(error) => return Err(error),
            Ok(decl) => match put(&mut out, decl) {
                Err(_) => return Err(CheckErr::Memory),
                Ok(()) => {}
            },
        }
    }
    Ok(out)
}

fn declaration(
    alloc: Global,
    setting: Setting,
    state: &mut State,
    ty: Ty,
    decl: &Decl,
) -> Result<TypedDecl, CheckErr>
    ensures { TellsDecl result state.new (judged_decl setting ty (view_decl decl.now) state.old) }
{
    match state.names.find(decl.name.as_str()) {
        Some(_) => Err(CheckErr::Twice { span: decl.span }),
        None => valued(alloc, setting, state, ty, decl),
    }
}

fn valued(
    alloc: Global,
    setting: Setting,
    state: &mut State,
    ty: Ty,
    decl: &Decl,
) -> Result<TypedDecl, CheckErr>
    ensures { TellsDecl result state.new (valued setting ty decl.now.span decl.now.name (view_option decl.now.value) state.old) }
{
    match &decl.value {
        None => declare(alloc, state, ty, decl, None),
        Some(value) => {
            let judged = expression(alloc, setting, state, state.accessed, value);
            initial(alloc, state, ty, decl, span_of(value), judged)
        }
    }
}

fn initial(
    alloc: Global,
    state: &mut State,
    ty: Ty,
    decl: &Decl,
    at: Span,
    value: Result<Judged, CheckErr>,
) -> Result<TypedDecl, CheckErr>
    ensures { (r : Result T.Judged Refusal) → Tells value r → TellsDecl result state.new (initial decl.now.span decl.now.name ty at state.old r) }
{
    match value {
        Err(error) => Err(error),
        Ok(value) => match fits_into(at, ty, value.tree.ty) {
            Err(error) => {
                drop(value);
                Err(error)
            }
            Ok(_) => {
                state.accessed = value.accessed;
                declare(alloc, state, ty, decl, Some(value.tree))
            }
        },
    }
}

fn declare(
    alloc: Global,
    state: &mut State,
    ty: Ty,
    decl: &Decl,
    value: Option<TypedExpr>,
) -> Result<TypedDecl, CheckErr>
    ensures { TellsDecl result state.new (Ok (declared decl.now.span decl.now.name ty (typed_option value) state.old)) }
{
    match make_visible(alloc, state, ty, decl.name.as_str()) {
        Err(error) => {
            drop(value);
            Err(error)
        }
        Ok(()) => match Name::from_text(alloc, decl.name.as_str()) {
            Err(_) => {
                drop(value);
                Err(CheckErr::Memory)
            }
            Ok(name) => Ok(TypedDecl {
                span: decl.span,
                name,
                value,
            }),
        },
    }
}

fn make_visible(alloc: Global, state: &mut State, ty: Ty, name: &str) -> Result<(), CheckErr>
    requires { length name.now ≤ 80 }
    ensures ok { OnOk result (state.new ≡ with_local state.old name.now ty) }
    ensures err { IfErr result (λ e. e ≡ CheckErr.Memory) }
{
    match Name::from_text(alloc, name) {
        Err(_) => Err(CheckErr::Memory),
        Ok(name) => match state.names.declare(name, Role::Local { ty }) {
            Err(_) => Err(CheckErr::Memory),
            Ok(()) => Ok(()),
        },
    }
}
