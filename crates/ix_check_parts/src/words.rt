ghost use Rattle.std.specs.Prelude.{◌≡◌, Ok};
ghost use Rattle.ix_tree.specs.TypedTrees.{t_name};
ghost use Rattle.ix_typing.specs.Expressions.{is_constant, is_instruction, type_of_name, type_of_role, read, named, program_counter, x_word, mem_word};
ghost use Rattle.ix_check_parts.specs.Telling.{Tells, TellsType};

use crate::CheckErr;
use crate::judged::Judged;
use crate::types::type_near;
use ix_bits::{Name, Ty};
use ix_tree::{Span, TypedExpr, TypedExprKind};
use ix_typing::{Body, Role, Setting, State, Target};
use std::alloc::Global;

/// Whether a constant stands there.
pub fn is_constant(body: Body) -> bool
    ensures { result ≡ is_constant body }
{
    match body {
        Body::Constant => true,
        Body::Instruction => false,
        Body::Always => false,
    }
}

/// Whether an instruction's behaviour stands there.
pub fn is_instruction(body: Body) -> bool
    ensures { result ≡ is_instruction body }
{
    match body {
        Body::Constant => false,
        Body::Instruction => true,
        Body::Always => false,
    }
}

/// The type of a name that is read.
fn type_of_name(setting: Setting, state: &State, span: Span, name: &str) -> Result<Ty, CheckErr>
    ensures { TellsType result (type_of_name setting state.now span name.now) }
{
    if is_constant(setting.body) {
        return Err(CheckErr::Unknown { span });
    }
    type_of_role(state, span, state.names.find(name))
}

fn type_of_role(state: &State, span: Span, role: Option<Role>) -> Result<Ty, CheckErr>
    ensures { TellsType result (type_of_role state.now span role) }
{
    match role {
        None => Err(CheckErr::Unknown { span }),
        Some(Role::Table { .. }) => Err(CheckErr::Unknown { span }),
        Some(Role::Field(field)) => Ok(field.ty),
        Some(Role::Local { ty }) => Ok(ty),
        Some(Role::Register { number, ty }) => read(state, span, Target::Register(number), ty),
    }
}

/// The type of a target that is read: no path wrote it before.
fn read(state: &State, span: Span, target: Target, ty: Ty) -> Result<Ty, CheckErr>
    ensures { TellsType result (read state.now span target ty) }
{
    if state.written.contains(target) {
        Err(CheckErr::ReadAfterWrite { span })
    } else {
        Ok(ty)
    }
}

/// A name that is read.
pub fn named(
    alloc: Global,
    setting: Setting,
    state: &State,
    accessed: bool,
    span: Span,
    name: &Name,
) -> Result<Judged, CheckErr>
    ensures { Tells result (named setting state.now accessed span name.now) }
{
    match type_of_name(setting, state, span, name.as_str()) {
        Err(error) => Err(error),
        Ok(ty) => with_name(alloc, accessed, span, ty, name),
    }
}

/// A name of a type.
pub fn with_name(
    alloc: Global,
    accessed: bool,
    span: Span,
    ty: Ty,
    name: &Name,
) -> Result<Judged, CheckErr>
    ensures { Tells result (Ok (record { tree = t_name span ty name.now; ty = ty; accessed = accessed })) }
{
    match Name::from_text(alloc, name.as_str()) {
        Err(_) => Err(CheckErr::Memory),
        Ok(name) => Ok(Judged {
            tree: TypedExpr {
                span,
                ty,
                kind: TypedExprKind::Name(name),
            },
            accessed,
        }),
    }
}

/// The program counter that is read.
pub fn program_counter(
    setting: Setting,
    state: &State,
    accessed: bool,
    span: Span,
) -> Result<Judged, CheckErr>
    ensures { Tells result (program_counter setting state.now accessed span) }
{
    if is_constant(setting.body) {
        return Err(CheckErr::Unknown { span });
    }
    if state.written.contains(Target::Pc) {
        return Err(CheckErr::ReadAfterWrite { span });
    }
    if setting.in_spawn {
        return Err(CheckErr::InSpawn { span });
    }
    Ok(Judged {
        tree: TypedExpr {
            span,
            ty: type_near(false, 32),
            kind: TypedExprKind::Pc,
        },
        accessed,
    })
}

/// The word X before an index.
pub fn x_word(
    setting: Setting,
    state: &State,
    accessed: bool,
    span: Span,
) -> Result<Judged, CheckErr>
    ensures { Tells result (x_word setting state.now accessed span) }
{
    if !is_instruction(setting.body) {
        return Err(CheckErr::Index { span });
    }
    if state.written.contains(Target::Rd) {
        return Err(CheckErr::ReadAfterWrite { span });
    }
    Ok(Judged {
        tree: TypedExpr {
            span,
            ty: type_near(false, 32),
            kind: TypedExprKind::X,
        },
        accessed,
    })
}

/// The word MEM before an index.
pub fn mem_word(setting: Setting, accessed: bool, span: Span) -> Result<Judged, CheckErr>
    ensures { Tells result (mem_word setting accessed span) }
{
    if !is_instruction(setting.body) {
        return Err(CheckErr::Index { span });
    }
    if accessed {
        return Err(CheckErr::SecondAccess { span });
    }
    if setting.in_spawn {
        return Err(CheckErr::InSpawn { span });
    }
    Ok(Judged {
        tree: TypedExpr {
            span,
            ty: type_near(false, 8),
            kind: TypedExprKind::Mem,
        },
        accessed: true,
    })
}
