ghost use Rattle.std.specs.Prelude.{◌≡◌, ◌<◌, ◌≤◌, All, map, Some, IfOk};
ghost use Rattle.ix_graph.specs.Graphs.{IsTyped, arg_type};
ghost use Rattle.ix_graph.specs.Roles.{role_of};
ghost use Rattle.ix_netgen.specs.KeptWires.{IsInReach, IsFound, IsSupplied, Supplies, MayHold, ResultsAs};

use crate::banks::hold;
use crate::kept::Kept;
use ix_bits::Memory;
use ix_cells::{Operand, Signal, Wire, compute, constant};
use ix_graph::{Arg, Graph, Op, Role, kind_role};
use ix_net::Net;
use std::alloc::Global;

// The result of an earlier operation, as it stands at a time.
fn found(ops: &[Op], kept: &[Kept], number: u32, time: u8) -> Operand
    requires { IsInReach ops.now kept.now time (Arg.Op number) }
    ensures { IsFound ops.now kept.now time number result }
{
    let place = number as usize;
    let ago = time - kept[place].from;
    let wire = kept[place].wires[ago as usize];
    Operand {
        ty: ops[place].ty,
        signal: wire.signal,
    }
}

fn argument(
    alloc: Global,
    net: &mut Net,
    ops: &[Op],
    kept: &[Kept],
    arg: Arg,
    time: u8,
) -> Result<Operand, Memory>
    requires { IsInReach ops.now kept.now time arg }
    ensures { IfOk result (λ o. IsSupplied ops.now kept.now time arg net.old net.new o) }
{
    match arg {
        Arg::Op(number) => Ok(found(ops, kept, number, time)),
        Arg::Const(ty, bits) => {
            let wire = constant(alloc, net, bits)?;
            Ok(Operand {
                ty,
                signal: wire.signal,
            })
        }
    }
}

/// The arguments of an operation, as they stand at a time.
pub(crate) fn arguments(
    alloc: Global,
    net: &mut Net,
    ops: &[Op],
    kept: &[Kept],
    args: &[Arg],
    time: u8,
) -> Result<Vec<Operand>, Memory>
    requires { All (IsInReach ops.now kept.now time) args.now }
    ensures { IfOk result (λ os. Supplies ops.now kept.now time args.now net.old net.new os.items) }
{
    let mut operands = Vec::new(alloc);
    for arg in args {
        let operand = argument(alloc, net, ops, kept, *arg, time)?;
        operands.push(operand)?;
    }
    Ok(operands)
}

fn held(
    alloc: Global,
    net: &mut Net,
    number: usize,
    wire: Wire,
    from: u8,
    last: u8,
) -> Result<Vec<Wire>, Memory>
    requires { last < 255 }
    ensures { IfOk result (λ ws. MayHold number wire from last net.old net.new ws.items) }
{
    if last < from {
        return Ok(Vec::new(alloc));
    }
    hold(alloc, net, number, wire, from, last)
}

/// The wires of an operation's result.
pub(crate) fn results(
    alloc: Global,
    net: &mut Net,
    graph: &Graph,
    op: &Op,
    number: usize,
    operands: &[Operand],
    from: u8,
    last: u8,
) -> Result<Vec<Wire>, Memory>
    requires last { last < 255 }
    requires typed { IsTyped graph.now op.now.kind op.now.args op.now.ty }
    requires types { map (λ o. Some o.ty) operands.now ≡ map (arg_type graph.now.ops) op.now.args }
    ensures { IfOk result (λ ws. ResultsAs (role_of op.now.kind) graph.now op.now number operands.now from last net.old net.new ws.items) }
{
    match kind_role(&op.kind) {
        Role::Write => Ok(Vec::new(alloc)),
        Role::Read => held(
            alloc,
            net,
            number,
            Wire {
                signal: Signal::Input(number),
                width: op.ty.width,
            },
            from,
            last,
        ),
        Role::Compute => {
            let wire = compute(alloc, net, graph, op, operands)?;
            held(alloc, net, number, wire, from, last)
        }
    }
}
