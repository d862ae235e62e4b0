ghost use Rattle.std.specs.Prelude.{◌≡◌, IfOk};
ghost use Rattle.ix_mean.specs.View.{view_statements, frame_of};
ghost use Rattle.ix_extension.specs.Extensions.{view_extension};
ghost use Rattle.ix_extension.specs.WellFormed.{IsWellFormed};
ghost use Rattle.ix_behaviour.specs.Behaviours.{HasBehaviour, statement_at, frame_at};
ghost use Rattle.ix_slots.specs.Found.{entries_of};
ghost use Rattle.ix_behaviour.specs.Flags.{flags_at};

use crate::marks::flags;
use crate::parts::{body_of, pieces_of};
use crate::stores::{stored_first, target_types};
use ix_behaviour::{Which, behaviour_laws};
use ix_bits::{List, Memory};
use ix_mean::{ResolvedStmt, Types};
use ix_slots::{Locals, Names, statements};
use ix_tree::Extension;
use std::alloc::Global;

/// A behaviour with its names resolved: the types of its slots and targets, its statements one behind the other, and for
/// each target whether a spawned body writes it.
#[derive(Drop)]
pub struct Resolved {
    pub types: Types,
    pub body: List<ResolvedStmt>,
    pub spawned: List<bool>,
}

/// The behaviour of a well-formed extension with its names resolved. It takes as much memory as the behaviour.
pub fn resolve(alloc: Global, ext: &Extension, which: Which) -> Result<Resolved, Memory>
    requires well_formed { IsWellFormed ext.now }
    requires in_range { HasBehaviour (view_extension ext.now) which }
    ensures body { IfOk result (λ r. view_statements (entries_of ext.now.tables) r.body ≡ statement_at (view_extension ext.now) which) }
    ensures types { IfOk result (λ r. frame_of r.types ≡ frame_at (view_extension ext.now) which) }
    ensures spawned { IfOk result (λ r. r.spawned ≡ flags_at (view_extension ext.now) which) }
{
    behaviour_laws();
    let registers = ext.registers.as_slice();
    let names = Names::new(
        alloc,
        pieces_of(ext, which),
        registers,
        ext.tables.as_slice(),
    )?;
    let mut locals = Locals::new(alloc);
    let body = statements(alloc, &names, &mut locals, body_of(ext, which))?;
    let slots = List::from_vec(locals.into_slots());
    let targets = target_types(alloc, registers, stored_first(body.as_slice()))?;
    let spawned = flags(alloc, targets.as_slice(), body.as_slice())?;
    Ok(Resolved {
        types: Types { slots, targets },
        body,
        spawned,
    })
}
