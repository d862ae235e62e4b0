ghost use Rattle.std.specs.Prelude.{◌≡◌, ℕ, map, length, option_map};
ghost use Rattle.ix_mean.specs.declared.resolved.ResolvedStmt.{Block};
ghost use Rattle.ix_mean.specs.Meaning.{run, accesses, reads};
ghost use Rattle.ix_mean.specs.View.{view_expression, view_statement, seen, type_seen};
ghost use Rattle.ix_mean.specs.Given.{inputs_of, IsTypedExpressionAt, IsTypedStatementAt, numbers_of, Gives};
ghost use Rattle.ix_eval.specs.Readings.{reading_seen, first_of, either};

use ix_bits::{Bits, List, Ty, Value};
use ix_mean::{ResolvedExpr, ResolvedStmt, State, Written, execute, holds, number};

/// A read of memory: the type that is read, and the address.
#[derive(Clone, Copy)]
pub(crate) struct Reading {
    pub ty: Ty,
    pub at: Value,
}

// The first of two reads.
fn either(first: Option<Reading>, second: Option<Reading>) -> Option<Reading>
    ensures { option_map reading_seen result ≡ either (option_map reading_seen first) (option_map reading_seen second) }
{
    match first {
        Some(reading) => Some(reading),
        None => second,
    }
}

// The first memory read of an expression.
fn read_of<M: Fn(u32, u8) -> u32>(
    state: &State,
    tables: &[List<Bits>],
    memory: &M,
    slots: &[Value],
    e: &ResolvedExpr,
) -> Option<Reading>
    requires callable { M.IsAlwaysCallable memory.now }
    requires typed { IsTypedExpressionAt state.now slots.now (view_expression tables.now e.now) }
    ensures { (m : ℕ → ℕ → ℕ) → Gives (M.post memory.now) m → option_map reading_seen result ≡ first_of (accesses (inputs_of state.now m) (map seen slots.now) (view_expression tables.now e.now)) }
{
    match e {
        ResolvedExpr::Const(_, _) | ResolvedExpr::Slot(_, _) | ResolvedExpr::Read(_, _) => None,
        ResolvedExpr::Load(ty, a) => either(
            read_of(state, tables, memory, slots, a),
            Some(Reading {
                ty: *ty,
                at: number(state, tables, memory, slots, a),
            }),
        ),
        ResolvedExpr::One(_, _, a) | ResolvedExpr::Cast(_, a) | ResolvedExpr::Entry(_, _, a) => {
            read_of(state, tables, memory, slots, a)
        }
        ResolvedExpr::Two(_, _, a, b) => either(
            read_of(state, tables, memory, slots, a),
            read_of(state, tables, memory, slots, b),
        ),
        ResolvedExpr::Choose(_, c, a, b) => either(
            either(
                read_of(state, tables, memory, slots, c),
                read_of(state, tables, memory, slots, a),
            ),
            read_of(state, tables, memory, slots, b),
        ),
    }
}

/// Does what the statement does, and gives its first memory read.
#[cycle(readings)]
pub(crate) fn read_first<M: Fn(u32, u8) -> u32>(
    state: &State,
    tables: &[List<Bits>],
    memory: &M,
    slots: &mut [Value],
    targets: &mut [Option<Written>],
    x: &ResolvedStmt,
) -> Option<Reading>
    requires callable { M.IsAlwaysCallable memory.now }
    requires typed { IsTypedStatementAt state.now slots.old (length targets.old) (view_statement tables.now x.now) }
    ensures types { map type_seen slots.new ≡ map type_seen slots.old }
    ensures effect { (m : ℕ → ℕ → ℕ) → Gives (M.post memory.now) m → numbers_of slots.new targets.new ≡ run (inputs_of state.now m) (view_statement tables.now x.now) (numbers_of slots.old targets.old) }
    ensures reads { (m : ℕ → ℕ → ℕ) → Gives (M.post memory.now) m → option_map reading_seen result ≡ first_of (reads (inputs_of state.now m) (view_statement tables.now x.now) (numbers_of slots.old targets.old)) }
{
    match x {
        ResolvedStmt::Block(all) => read_first_all(
            state,
            tables,
            memory,
            slots,
            targets,
            all.as_slice(),
        ),
        ResolvedStmt::Set(_, _, e) => {
            let first = read_of(state, tables, memory, slots, e);
            execute(state, tables, memory, slots, targets, x);
            first
        }
        ResolvedStmt::Write(w) => {
            let first = either(
                read_of(state, tables, memory, slots, &w.address),
                read_of(state, tables, memory, slots, &w.value),
            );
            execute(state, tables, memory, slots, targets, x);
            first
        }
        ResolvedStmt::If(c, x, y) => {
            let first = read_of(state, tables, memory, slots, c);
            if holds(number(state, tables, memory, slots, c)) {
                either(first, read_first(state, tables, memory, slots, targets, x))
            } else {
                either(first, read_first(state, tables, memory, slots, targets, y))
            }
        }
        ResolvedStmt::Spawn(x) => read_first(state, tables, memory, slots, targets, x),
    }
}

// Does what the statements of a block do, in order, and gives their first memory read.
#[cycle(readings)]
fn read_first_all<M: Fn(u32, u8) -> u32>(
    state: &State,
    tables: &[List<Bits>],
    memory: &M,
    slots: &mut [Value],
    targets: &mut [Option<Written>],
    all: &[ResolvedStmt],
) -> Option<Reading>
    requires callable { M.IsAlwaysCallable memory.now }
    requires typed { IsTypedStatementAt state.now slots.old (length targets.old) (view_statement tables.now (Block all.now)) }
    ensures types { map type_seen slots.new ≡ map type_seen slots.old }
    ensures effect { (m : ℕ → ℕ → ℕ) → Gives (M.post memory.now) m → numbers_of slots.new targets.new ≡ run (inputs_of state.now m) (view_statement tables.now (Block all.now)) (numbers_of slots.old targets.old) }
    ensures reads { (m : ℕ → ℕ → ℕ) → Gives (M.post memory.now) m → option_map reading_seen result ≡ first_of (reads (inputs_of state.now m) (view_statement tables.now (Block all.now)) (numbers_of slots.old targets.old)) }
{
    let mut first = None;
    for x in all {
        first = either(first, read_first(state, tables, memory, slots, targets, x));
    }
    first
}
