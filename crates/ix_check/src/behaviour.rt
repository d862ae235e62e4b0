ghost use Rattle.std.specs.Prelude.{◌≡◌, ◌≤◌, ◌++◌, ◌∷◌, [], length, OnOk};
ghost use Rattle.ix_tree.specs.Rows.{view_whole};
ghost use Rattle.ix_typing.specs.Texts.{behaviour, global_state};
ghost use Rattle.ix_check_parts.specs.Telling.{TellsFault};
ghost use Rattle.ix_check.specs.Telling.{TellsBody, name_fault};

use ix_bits::Name;
use ix_check_parts::{CheckErr, check_statement};
use ix_tree::{Span, Stmt, TypedStmt};
use ix_typing::{Body, Setting, State, TakenNames, Targets};
use std::alloc::Global;

/// Makes the state one in which nothing is written yet.
pub fn restart(alloc: Global, state: &mut State)
    ensures { state.new ≡ global_state state.old.names }
{
    state.written = Targets::new(alloc);
    state.accessed = false;
    state.spawned = false;
}

/// A behaviour with its types. Behind it the names of before it are visible.
pub fn behaviour(
    alloc: Global,
    body: Body,
    state: &mut State,
    stmt: &Stmt,
) -> Result<TypedStmt, CheckErr>
    ensures told { TellsBody result (behaviour body state.old.names (view_whole stmt.now)) }
    ensures kept { OnOk result (state.new.names ≡ state.old.names) }
{
    let before = state.names.len();
    let setting = Setting {
        body,
        in_spawn: false,
        below_if: false,
    };
    restart(alloc, state);
    let typed = check_statement(alloc, setting, state, stmt);
    state.names.keep(before);
    typed
}

/// Gives a behaviour its name, which none before it has.
pub fn name_behaviour(
    alloc: Global,
    seen: &mut TakenNames,
    span: Span,
    name: &str,
) -> Result<(), CheckErr>
    requires { length name.now ≤ 80 }
    ensures told { TellsFault result (name_fault seen.old span name.now) }
    ensures named { OnOk result (seen.new ≡ seen.old ++ name.now ∷ []) }
{
    if seen.contains(name) {
        return Err(CheckErr::Twice { span });
    }
    match Name::from_text(alloc, name) {
        Err(_) => Err(CheckErr::Memory),
        Ok(name) => match seen.push(name) {
            Err(_) => Err(CheckErr::Memory),
            Ok(()) => Ok(()),
        },
    }
}
