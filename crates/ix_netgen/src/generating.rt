ghost use Rattle.std.specs.Prelude.{◌≡◌, ◌<◌, ◌≤◌, ◌+◌, ◌-◌, ◌||◌, length, All, IfOk, IsTrue, []};
ghost use Rattle.ix_net.specs.Name.{is_letter, is_mark};
ghost use Rattle.ix_net.specs.Valid.{IsValid};
ghost use Rattle.ix_graph.specs.Graphs.{IsValidGraph};
ghost use Rattle.ix_ports.specs.Ports.{last_from};
ghost use Rattle.ix_sheet.specs.Behaviours.{latency_of};
ghost use Rattle.ix_plan.specs.Service.{Serves};
ghost use Rattle.ix_netgen.specs.KeptWires.{timetable_of, IsTimed, IsStage, IsMade, IsBegun, IsStart};

use crate::kept::Kept;
use crate::outputs::outputs;
use crate::ports::{enables, last_of, module, reads};
use crate::results::{arguments, results};
use crate::uses::last_use;
use ix_bits::{List, Memory, Name};
use ix_graph::{Graph, Kind, Op};
use ix_net::Net;
use rv_core::Shape;
use std::alloc::Global;

fn latency(shape: Shape, kind: Kind) -> u8
    ensures value { result ≡ latency_of shape kind }
    ensures short { result ≤ 5 }
{
    match kind {
        Kind::RdMem => shape.mem - shape.ex,
        _ => 0,
    }
}

// The cells and banks of an operation.
fn operation(
    alloc: Global,
    net: &mut Net,
    graph: &Graph,
    times: &[u8],
    shape: Shape,
    last: u8,
    kept: &[Kept],
    number: usize,
) -> Result<Kept, Memory>
    requires valid { IsValidGraph graph.now }
    requires timed { IsTimed (timetable_of shape graph.now times.now) }
    requires last { last ≡ last_from shape.rd times.now }
    requires most { last < 255 }
    requires within { number < length graph.now.ops }
    requires stage { IsStage (timetable_of shape graph.now times.now) last number net.old kept.now }
    ensures { IfOk result (λ w. IsMade (timetable_of shape graph.now times.now) last number net.old net.new w) }
{
    let ops = graph.ops.as_slice();
    let op = &ops[number];
    let time = times[number];
    let operands = arguments(alloc, net, ops, kept, op.args.as_slice(), time)?;
    let from = time + latency(shape, op.kind);
    let until = last_use(ops, times, number);
    let wires = results(alloc, net, graph, op, number, &operands, from, until)?;
    Ok(Kept {
        from,
        wires,
        operands,
    })
}

// The cells and banks of all operations.
fn behaviour(
    alloc: Global,
    net: &mut Net,
    graph: &Graph,
    times: &[u8],
    shape: Shape,
    last: u8,
) -> Result<Vec<Kept>, Memory>
    requires valid { IsValidGraph graph.now }
    requires timed { IsTimed (timetable_of shape graph.now times.now) }
    requires last { last ≡ last_from shape.rd times.now }
    requires most { last < 255 }
    requires stage { IsStage (timetable_of shape graph.now times.now) last 0 net.old [] }
    ensures { IfOk result (λ ws. IsBegun (timetable_of shape graph.now times.now) last (length graph.now.ops) net.old net.new ws.items) }
{
    let mut kept = Vec::new(alloc);
    for number in 0..graph.ops.len() {
        let made = operation(alloc, net, graph, times, shape, last, &kept, number)?;
        kept.push(made)?;
    }
    Ok(kept)
}

// The module with its inputs alone.
fn start(alloc: Global, name: &Name, ops: &[Op], rd: u8, last: u8) -> Result<Net, Memory>
    requires { length name.now ≤ 76 }
    ensures { IfOk result (λ net. IsStart name.now rd last ops.now net) }
{
    let module_name = module(alloc, name)?;
    let mut inputs = enables(alloc, rd, last)?;
    reads(alloc, &mut inputs, ops)?;
    Ok(Net {
        name: module_name,
        inputs: List::from_vec(inputs),
        cells: List::new(alloc),
        banks: List::new(alloc),
        outputs: List::new(alloc),
    })
}

/// The net of a behaviour of this name, with this graph at these times. Results that are used at later times stand in banks.
pub fn generate(
    alloc: Global,
    name: &Name,
    graph: &Graph,
    times: &[u8],
    shape: Shape,
) -> Result<Net, Memory>
    requires short { length name.now ≤ 76 }
    requires plain { All (λ b. IsTrue (is_letter b || is_mark b)) name.now }
    requires valid { IsValidGraph graph.now }
    requires timed { IsTimed (timetable_of shape graph.now times.now) }
    ensures valid { IfOk result (λ net. IsValid net) }
    ensures serves { IfOk result (λ net. Serves shape name.now graph.now times.now net) }
{
    let last = last_of(times, shape.rd);
    let mut net = start(alloc, name, graph.ops.as_slice(), shape.rd, last)?;
    let kept = behaviour(alloc, &mut net, graph, times, shape, last)?;
    outputs(alloc, &mut net, graph.ops.as_slice(), &kept)?;
    Ok(net)
}
