ghost use Rattle.std.specs.Prelude.{◌≡◌, Some, map};
ghost use Rattle.ix_graph.specs.Graphs.{IsTyped, arg_type};
ghost use Rattle.ix_graph.specs.Roles.{role_of};

use ix_bits::{Bits, List, Memory, Name};
use ix_cells::{Operand, Signal, Wire, compute, name};
use ix_graph::{Graph, Op, Role};
use ix_net::{Cell, Form, Net, Port, is_valid};
use ix_neteval::prepare;
use ix_ports::Letter;
use std::alloc::Global;

/// A module with inputs of the widths of these patterns, and no cell.
fn inputs_alone(alloc: Global, patterns: &[Bits]) -> Result<Net, Memory> {
    let module = Name::from_text(alloc, "operation_0")?;
    let mut inputs = List::new(alloc);
    for (number, pattern) in patterns.iter().enumerate() {
        let port = name(alloc, Signal::Input(number))?;
        inputs.push(Port {
            name: port,
            width: pattern.width,
        })?;
    }
    Ok(Net {
        name: module,
        inputs,
        cells: List::new(alloc),
        banks: List::new(alloc),
        outputs: List::new(alloc),
    })
}

/// Puts an output that shows the wire.
fn put_output(alloc: Global, net: &mut Net, wire: Wire) -> Result<(), Memory> {
    let output = Signal::Output(0, Letter::Value);
    let target = name(alloc, output)?;
    let source = name(alloc, wire.signal)?;
    let port = name(alloc, output)?;
    net.cells.push(Cell {
        target,
        width: wire.width,
        form: Form::Copy(source),
    })?;
    net.outputs.push(Port {
        name: port,
        width: wire.width,
    })
}

/// What the one output shows of these patterns at the inputs; none where the module is not valid or
/// has other ports.
fn settled(alloc: Global, net: &Net, patterns: &[Bits]) -> Result<Option<Bits>, Memory> {
    if !is_valid(alloc, net)? || net.outputs.len() != 1 {
        return Ok(None);
    }
    let mut sim = prepare(alloc, net)?;
    if !sim.accepts(patterns) {
        return Ok(None);
    }
    sim.settle(patterns);
    Ok(Some(sim.output(0)))
}

/// What the cells of an operation show of these patterns at the inputs; none where the module of
/// these cells is not valid.
pub fn shown(
    alloc: Global,
    graph: &Graph,
    op: &Op,
    operands: &[Operand],
    patterns: &[Bits],
) -> Result<Option<Bits>, Memory>
    requires role { role_of op.now.kind ≡ Role.Compute }
    requires typed { IsTyped graph.now op.now.kind op.now.args op.now.ty }
    requires types { map (λ o. Some o.ty) operands.now ≡ map (arg_type graph.now.ops) op.now.args }
{
    let mut net = inputs_alone(alloc, patterns)?;
    let wire = compute(alloc, &mut net, graph, op, operands)?;
    put_output(alloc, &mut net, wire)?;
    settled(alloc, &net, patterns)
}
