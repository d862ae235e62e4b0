ghost use Rattle.std.specs.Prelude.{◌≡◌, List, map, IfOk};
ghost use Rattle.ix_slots.specs.Spawned.{written_in, written_among, spawned_in, spawned_among};
ghost use Rattle.ix_behaviour.specs.Flags.{unmarked, marked};

use ix_bits::{List, Memory, Ty};
use ix_mean::ResolvedStmt;
use std::alloc::Global;

// Marks the targets that the statement writes.
#[cycle(written)]
fn mark_written(x: &ResolvedStmt, flags: &mut [bool])
    ensures { flags.new ≡ marked flags.old (written_in x.now) }
{
    match x {
        ResolvedStmt::Block(all) => mark_all_written(all.as_slice(), flags),
        ResolvedStmt::Set(_, _, _) => {}
        ResolvedStmt::Write(w) => {
            if w.target < flags.len() {
                flags[w.target] = true;
            }
        }
        ResolvedStmt::If(_, x, y) => {
            mark_written(x, flags);
            mark_written(y, flags);
        }
        ResolvedStmt::Spawn(x) => mark_written(x, flags),
    }
}

#[cycle(written)]
fn mark_all_written(all: &[ResolvedStmt], flags: &mut [bool])
    ensures { flags.new ≡ marked flags.old (written_among all.now) }
{
    for x in all {
        mark_written(x, flags);
    }
}

// Marks the targets that spawned bodies in the statement write.
#[cycle(spawned)]
fn mark_spawned(x: &ResolvedStmt, flags: &mut [bool])
    ensures { flags.new ≡ marked flags.old (spawned_in x.now) }
{
    match x {
        ResolvedStmt::Block(all) => mark_all_spawned(all.as_slice(), flags),
        ResolvedStmt::Set(_, _, _) | ResolvedStmt::Write(_) => {}
        ResolvedStmt::If(_, x, y) => {
            mark_spawned(x, flags);
            mark_spawned(y, flags);
        }
        ResolvedStmt::Spawn(x) => mark_written(x, flags),
    }
}

#[cycle(spawned)]
fn mark_all_spawned(all: &[ResolvedStmt], flags: &mut [bool])
    ensures { flags.new ≡ marked flags.old (spawned_among all.now) }
{
    for x in all {
        mark_spawned(x, flags);
    }
}

/// For each target whether a spawned body writes it.
pub(crate) fn flags(
    alloc: Global,
    targets: &[Ty],
    body: &[ResolvedStmt],
) -> Result<List<bool>, Memory>
    ensures { IfOk result (λ flags. flags ≡ marked (map unmarked targets.now) (spawned_among body.now)) }
{
    let mut flags = Vec::new(alloc);
    while flags.len() < targets.len() {
        flags.push(false)?;
    }
    mark_all_spawned(body, flags.as_mut_slice());
    Ok(List::from_vec(flags))
}
