ghost use Rattle.std.specs.Prelude.{◌≡◌, ◌≤◌, length, IfOk};
ghost use Rattle.ix_extension.specs.Extensions.{view_extension};
ghost use Rattle.ix_extension.specs.WellFormed.{IsWellFormed};
ghost use Rattle.ix_behaviour.specs.Behaviours.{HasBehaviour};
ghost use Rattle.ix_slots.specs.Found.{entries_of};
ghost use Rattle.ix_graph.specs.Graphs.{IsValidGraph};
ghost use Rattle.ix_graph_laws.specs.Laws.{DoesAsNamed, HasAllValues};
ghost use Rattle.ix_graphs.specs.Graphed.{GraphsTo};

use ix_behaviour::{Which, behaviour_laws};
use ix_bits::{Bits, List, Memory};
use ix_flow::{FlowErr, graph_of_resolved};
use ix_graph::Graph;
use ix_graph_laws::graph_laws;
use ix_resolve::{Resolved, resolve};
use ix_terms::Source;
use ix_tree::{Extension, Table};
use std::alloc::Global;

/// The greatest count of tables of which a behaviour may read.
const MOST_TABLES: usize = 65536;

// The entries of tables, in their order.
fn entries(alloc: Global, tables: &[Table]) -> Result<List<List<Bits>>, Memory>
    ensures { IfOk result (λ list. list ≡ entries_of tables.now) }
{
    let mut out = Vec::new(alloc);
    for table in tables {
        let copy = List::from_slice(alloc, table.entries.as_slice())?;
        out.push(copy)?;
    }
    Ok(List::from_vec(out))
}

// The graph of a behaviour, by its operations.
fn graph_at(alloc: Global, ext: &Extension, which: Which) -> Result<Graph, FlowErr>
    requires well_formed { IsWellFormed ext.now }
    requires in_range { HasBehaviour (view_extension ext.now) which }
    ensures { GraphsTo (view_extension ext.now) which (entries_of ext.now.tables) result }
{
    behaviour_laws();
    if ext.tables.len() > MOST_TABLES {
        return Err(FlowErr::Memory);
    }
    match entries(alloc, ext.tables.as_slice()) {
        Err(_) => Err(FlowErr::Memory),
        Ok(tables) => match resolve(alloc, ext, which) {
            Err(_) => Err(FlowErr::Memory),
            Ok(resolved) => {
                let Resolved {
                    types,
                    body,
                    spawned,
                } = resolved;
                let source = Source { types, tables };
                graph_of_resolved(alloc, &source, body.as_slice(), spawned.as_slice())
            }
        },
    }
}

/// The operation graph of a behaviour of a well-formed extension: a valid graph, whose operations have the values of the
/// behaviour's terms, and which writes and reads what the behaviour does by its names. It answers `TooManyOps` where it has more
/// than 256 operations, and `Memory` past 65,536 tables too.
pub fn graph_of(alloc: Global, ext: &Extension, which: Which) -> Result<Graph, FlowErr>
    requires well_formed { IsWellFormed ext.now }
    requires in_range { HasBehaviour (view_extension ext.now) which }
    ensures graph { GraphsTo (view_extension ext.now) which (entries_of ext.now.tables) result }
    ensures valid { IfOk result IsValidGraph }
    ensures effect { IfOk result (DoesAsNamed (view_extension ext.now) which) }
    ensures values { IfOk result (HasAllValues (view_extension ext.now) which) }
{
    graph_laws();
    graph_at(alloc, ext, which)
}
