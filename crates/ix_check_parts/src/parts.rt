ghost use Rattle.std.specs.Prelude.{◌≡◌, List, map, Result, Ok, Err, IfOk, IfErr};
ghost use Rattle.ix_tree.specs.View.{view, view_decl};
ghost use Rattle.ix_tree.specs.TypedTrees.{TypedAssignTree, TypedDeclTree, TypedStmtTree, ts_if, ts_if_else};
ghost use Rattle.ix_tree.specs.TypedView.{typed_view, typed_whole};
ghost use Rattle.ix_typing.specs.declared.state.State.{State};
ghost use Rattle.ix_typing.specs.Refusals.{Refusal, and_then, Step};
ghost use Rattle.ix_typing.specs.Expressions.{written};
ghost use Rattle.ix_typing.specs.Statements.{below_if, below_spawn, judged_decls, locals, assign, condition, choice, choice_else, spawned};
ghost use Rattle.ix_check_parts.specs.Telling.{TellsAssign, TellsDecls, TellsStmt, TellsCondition, appended};

use crate::CheckErr;
use crate::expression::expression;
use crate::judged::Branch;
use crate::locals::declarations;
use crate::types::written_type;
use ix_bits::{List, boxed, boxed_pair};
use ix_tree::{
    Decl, Expr, Span, TypeText, TypedAssign, TypedDecl, TypedExpr, TypedStmt, TypedStmtKind,
};
use ix_typing::{Setting, State, Target};
use std::alloc::Global;

/// The setting below an `if`.
pub fn below_if(setting: Setting) -> Setting
    ensures { result ≡ below_if setting }
{
    Setting {
        body: setting.body,
        in_spawn: setting.in_spawn,
        below_if: true,
    }
}

/// The setting below a `spawn`.
pub fn below_spawn(setting: Setting) -> Setting
    ensures { result ≡ below_spawn setting }
{
    Setting {
        body: setting.body,
        in_spawn: true,
        below_if: setting.below_if,
    }
}

/// A statement of declarations.
pub fn locals(
    alloc: Global,
    setting: Setting,
    state: &mut State,
    span: Span,
    text: TypeText,
    decls: &[Decl],
) -> Result<TypedStmt, CheckErr>
    ensures { TellsStmt result state.new (and_then (written text.span text.kind) (λ ty. locals span text (judged_decls setting ty (map view_decl decls.now) state.old))) }
{
    match written_type(text) {
        Err(error) => Err(error),
        Ok(ty) => {
            let decls = declarations(alloc, setting, state, ty, decls);
            locals_of(span, text, decls)
        }
    }
}

fn locals_of(
    span: Span,
    text: TypeText,
    decls: Result<Vec<TypedDecl>, CheckErr>,
) -> Result<TypedStmt, CheckErr>
    ensures { (st : State) (r : Result (Step State (List TypedDeclTree)) Refusal) → TellsDecls decls st r → TellsStmt result st (locals span text r) }
{
    match decls {
        Err(error) => Err(error),
        Ok(decls) => Ok(TypedStmt {
            span,
            kind: TypedStmtKind::Locals(text, List::from_vec(decls)),
        }),
    }
}

/// A statement of an assignment.
pub fn assign_of(span: Span, typed: Result<TypedAssign, CheckErr>) -> Result<TypedStmt, CheckErr>
    ensures { (st : State) (r : Result (Step State TypedAssignTree) Refusal) → TellsAssign typed st r → TellsStmt result st (assign span r) }
{
    match typed {
        Err(error) => Err(error),
        Ok(typed) => Ok(TypedStmt {
            span,
            kind: TypedStmtKind::Assign(typed),
        }),
    }
}

/// The condition of an `if`.
pub fn condition(
    alloc: Global,
    setting: Setting,
    state: &mut State,
    c: &Expr,
) -> Result<TypedExpr, CheckErr>
    ensures { TellsCondition result state.new (condition setting (view c.now) state.old) }
{
    match expression(alloc, setting, state, state.accessed, c) {
        Err(error) => Err(error),
        Ok(c) => {
            state.accessed = c.accessed;
            Ok(c.tree)
        }
    }
}

/// An `if` without `else`.
pub fn choice(
    alloc: Global,
    span: Span,
    c: TypedExpr,
    x: Result<TypedStmt, CheckErr>,
) -> Result<TypedStmt, CheckErr>
    ensures { (st : State) (r : Result (Step State TypedStmtTree) Refusal) → TellsStmt x st r → TellsStmt result st (choice span (typed_view c) r) }
{
    match x {
        Err(error) => {
            drop(c);
            Err(error)
        }
        Ok(x) => chosen(alloc, span, c, x),
    }
}

fn chosen(alloc: Global, span: Span, c: TypedExpr, x: TypedStmt) -> Result<TypedStmt, CheckErr>
    ensures { (st : State) → TellsStmt result st (Ok (record { item = ts_if span (typed_view c) (typed_whole x); after = st })) }
{
    match boxed(alloc, x) {
        Err(_) => {
            drop(c);
            Err(CheckErr::Memory)
        }
        Ok(x) => Ok(TypedStmt {
            span,
            kind: TypedStmtKind::If(c, x, None),
        }),
    }
}

/// The condition of an `if` with its first branch, where that has come about.
pub fn with_branch(c: TypedExpr, x: Result<TypedStmt, CheckErr>) -> Result<Branch, CheckErr>
    ensures ok { IfOk result (λ b. (x ≡ Ok b.first) × (b.condition ≡ c)) }
    ensures err { IfErr result (λ e. x ≡ Err e) }
{
    match x {
        Err(error) => {
            drop(c);
            Err(error)
        }
        Ok(first) => Ok(Branch {
            condition: c,
            first,
        }),
    }
}

/// An `if` with both branches.
pub fn choice_else(
    alloc: Global,
    span: Span,
    branch: Branch,
    y: Result<TypedStmt, CheckErr>,
) -> Result<TypedStmt, CheckErr>
    ensures { (st : State) (r : Result (Step State TypedStmtTree) Refusal) → TellsStmt y st r → TellsStmt result st (choice_else span (typed_view branch.condition) (typed_whole branch.first) r) }
{
    match y {
        Err(error) => {
            drop(branch);
            Err(error)
        }
        Ok(y) => chosen_else(alloc, span, branch.condition, branch.first, y),
    }
}

fn chosen_else(
    alloc: Global,
    span: Span,
    c: TypedExpr,
    x: TypedStmt,
    y: TypedStmt,
) -> Result<TypedStmt, CheckErr>
    ensures { (st : State) → TellsStmt result st (Ok (record { item = ts_if_else span (typed_view c) (typed_whole x) (typed_whole y); after = st })) }
{
    match boxed_pair(alloc, x, y) {
        Err(_) => {
            drop(c);
            Err(CheckErr::Memory)
        }
        Ok((x, y)) => Ok(TypedStmt {
            span,
            kind: TypedStmtKind::If(c, x, Some(y)),
        }),
    }
}

/// Puts what the first branch wrote behind what the second did.
pub fn joined(
    state: &mut State,
    first: &[Target],
    y: Result<TypedStmt, CheckErr>,
) -> Result<TypedStmt, CheckErr>
    ensures { (r : Result (Step State TypedStmtTree) Refusal) → TellsStmt y state.old r → TellsStmt result state.new (and_then r (λ k. Ok (record { item = k.item; after = appended first.now k.after }))) }
{
    match y {
        Err(error) => Err(error),
        Ok(y) => match state.written.append(first) {
            Err(_) => {
                drop(y);
                Err(CheckErr::Memory)
            }
            Ok(()) => Ok(y),
        },
    }
}

/// A `spawn`.
pub fn spawned(
    alloc: Global,
    span: Span,
    x: Result<TypedStmt, CheckErr>,
) -> Result<TypedStmt, CheckErr>
    ensures { (st : State) (r : Result (Step State TypedStmtTree) Refusal) → TellsStmt x st r → TellsStmt result st (spawned span r) }
{
    match x {
        Err(error) => Err(error),
        Ok(x) => match boxed(alloc, x) {
            Err(_) => Err(CheckErr::Memory),
            Ok(x) => Ok(TypedStmt {
                span,
                kind: TypedStmtKind::Spawn(x),
            }),
        },
    }
}
