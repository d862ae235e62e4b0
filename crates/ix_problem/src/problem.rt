ghost use Rattle.std.specs.Prelude.{◌≡◌, ◌≤◌, ◌++◌, IfOk, OnOk, length, map};
ghost use Rattle.std.specs.List.{zip, list_any};
ghost use Rattle.ix_graph.specs.Graphs.{IsValidGraph};
ghost use Rattle.ix_sheet.specs.Sheets.{IsValidSheet};
ghost use Rattle.ix_sheet.specs.Behaviours.{node_of, names_op, edges_into, edges_from, AreEdges, problem_of};

use ix_bits::{List, Memory};
use ix_graph::{Arg, Graph, Mode, Op, kind_place};
use ix_sheet::{Node, Problem, Sheet, latency, mode_window, weight};
use std::alloc::Global;

/// The problem of a valid graph in a mode, by a datasheet: each operation has the sheet's delay, its latency (in times), its weight and the
/// window of the mode, which may be empty; there is an edge (from, to) exactly where `from` is an argument of `to`, by their
/// end and then by their start.
pub fn problem_of(
    alloc: Global,
    graph: &Graph,
    sheet: &Sheet,
    mode: Mode,
) -> Result<Problem, Memory>
    requires graph { IsValidGraph graph.now }
    requires sheet { IsValidSheet sheet.now }
    ensures problem { IfOk result (λ problem. problem ≡ problem_of graph.now sheet.now mode) }
    ensures edges { IfOk result (λ problem. AreEdges graph.now.ops problem.edges) }
{
    Ok(Problem {
        ops: nodes_of(alloc, graph, sheet, mode)?,
        edges: edges_of(alloc, graph.ops.as_slice())?,
        period: sheet.period,
    })
}

fn node_for(sheet: &Sheet, mode: Mode, op: &Op, spawned: bool) -> Node
    ensures { result ≡ node_of sheet.now mode (op.now, spawned) }
{
    let (early, late) = mode_window(sheet, mode, &op.kind, spawned);
    Node {
        delay: sheet.delay[kind_place(&op.kind) as usize],
        latency: latency(sheet.shape, &op.kind),
        weight: weight(sheet, op),
        early,
        late,
    }
}

fn nodes_of(alloc: Global, graph: &Graph, sheet: &Sheet, mode: Mode) -> Result<List<Node>, Memory>
    requires { length graph.now.spawned ≡ length graph.now.ops }
    ensures { IfOk result (λ nodes. nodes ≡ map (node_of sheet.now mode) (zip graph.now.ops graph.now.spawned)) }
{
    let ops = graph.ops.as_slice();
    let spawned = graph.spawned.as_slice();
    let mut nodes = List::new(alloc);
    'ops: for at in 0..ops.len() {
        nodes.push(node_for(sheet, mode, &ops[at], spawned[at]))?;
    }
    Ok(nodes)
}

// Whether an operation is among the arguments of another.
fn has_argument(op: &Op, number: u32) -> bool
    ensures { result ≡ list_any (names_op number) op.now.args }
{
    op.args.as_slice().iter().any(|arg| *arg == Arg::Op(number))
}

fn edges_of(alloc: Global, ops: &[Op]) -> Result<List<(u32, u32)>, Memory>
    requires { length ops.now ≤ 256 }
    ensures { IfOk result (λ edges. edges ≡ edges_from 0 ops.now) }
{
    let mut edges = List::new(alloc);
    'ops: for to in 0..ops.len() {
        push_edges_into(&mut edges, to as u32, &ops[to])?;
    }
    Ok(edges)
}

// Puts the edges that end at an operation behind the others.
fn push_edges_into(edges: &mut List<(u32, u32)>, to: u32, op: &Op) -> Result<(), Memory>
    ensures { OnOk result (edges.new ≡ edges.old ++ edges_into to op.now) }
{
    'starts: for from in 0..to {
        if has_argument(op, from) {
            edges.push((from, to))?;
        }
    }
    Ok(())
}
