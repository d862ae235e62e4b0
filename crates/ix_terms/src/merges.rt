use crate::Source;
use ix_bits::Memory;
use ix_mean::ResolvedStmt;

/// The greatest count of ends of slots and targets that the `if`s of one behaviour may merge.
const MOST_MERGES: usize = 134_217_728;

/// Asks for the merges of the statements before they are made: at each `if` those of all slots and all targets.
pub fn asked(source: &Source, body: &[ResolvedStmt]) -> Result<(), Memory> {
    let types = &source.types;
    let ends = types.slots.len().saturating_add(types.targets.len());
    if choices_in_all(body).saturating_mul(ends) <= MOST_MERGES {
        Ok(())
    } else {
        Err(Memory)
    }
}

// How many `if`s the statement has, with itself.
#[cycle(choices)]
fn choices_in(stmt: &ResolvedStmt) -> usize {
    match stmt {
        ResolvedStmt::Block(all) => choices_in_all(all.as_slice()),
        ResolvedStmt::Set(_, _, _) | ResolvedStmt::Write(_) => 0,
        ResolvedStmt::If(_, x, y) => choices_in(x)
            .saturating_add(choices_in(y))
            .saturating_add(1),
        ResolvedStmt::Spawn(x) => choices_in(x),
    }
}

// How many `if`s the statements have.
#[cycle(choices)]
fn choices_in_all(all: &[ResolvedStmt]) -> usize {
    let mut count = 0;
    for stmt in all {
        count = choices_in(stmt).saturating_add(count);
    }
    count
}
