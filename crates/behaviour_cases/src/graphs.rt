ghost use Rattle.ix_extension.specs.WellFormed.{IsWellFormed};

use crate::given::TOO_MANY;
use ix_behaviour::Which;
use ix_bits::{Bits, Ty};
use ix_elab::elaborate;
use ix_flow::FlowErr;
use ix_graph::{Arg, Graph, Kind, Op, kind_place, kind_word};
use ix_graphs::graph_of;
use ix_tree::Extension;
use std::alloc::{AllocError, Global};

/// Puts a type, as `u32` or `s12`.
fn put_type(out: &mut String, ty: Ty) -> Result<(), AllocError> {
    out.push_str(if ty.signed { "s" } else { "u" })?;
    write!(out, "{}", ty.width)
}

/// Puts a kind with its numbers.
fn put_kind(out: &mut String, kind: &Kind) -> Result<(), AllocError> {
    out.push_str(kind_word(kind_place(kind)))?;
    match kind {
        Kind::RdCustReg(register) => write!(out, " {}", *register),
        Kind::WrCustReg(register) => write!(out, " {}", *register),
        Kind::Range { hi, lo } => write!(out, " {} {}", *hi, *lo),
        Kind::Rom(table) => write!(out, " {}", *table),
        _ => Ok(()),
    }
}

/// Puts an argument.
fn put_arg(out: &mut String, arg: Arg) -> Result<(), AllocError> {
    match arg {
        Arg::Op(number) => write!(out, " {number}"),
        Arg::Const(ty, bits) => {
            out.push_str(" ")?;
            put_type(out, ty)?;
            write!(out, ":{:x}", bits.raw)
        }
    }
}

/// Puts the line of an operation.
fn put_op(out: &mut String, number: usize, op: &Op, spawned: bool) -> Result<(), AllocError> {
    write!(out, "{number} ")?;
    put_kind(out, &op.kind)?;
    for arg in op.args.as_slice() {
        put_arg(out, *arg)?;
    }
    out.push_str(" -> ")?;
    put_type(out, op.ty)?;
    out.push_str(if spawned { " spawned\n" } else { "\n" })
}

/// Puts the line of a table.
fn put_table(out: &mut String, number: usize, entries: &[Bits]) -> Result<(), AllocError> {
    write!(out, "table {number}")?;
    for entry in entries {
        write!(out, " {:x}", entry.raw)?;
    }
    out.push_str("\n")
}

/// Puts the lines of a graph.
fn put_graph(out: &mut String, graph: &Graph) -> Result<(), AllocError> {
    let spawned = graph.spawned.as_slice();
    for (number, op) in graph.ops.as_slice().iter().enumerate() {
        put_op(out, number, op, number < spawned.len() && spawned[number])?;
    }
    for (number, table) in graph.tables.as_slice().iter().enumerate() {
        put_table(out, number, table.as_slice())?;
    }
    Ok(())
}

/// Puts what becomes of a behaviour.
fn put_behaviour(
    out: &mut String,
    name: &str,
    graph: Result<Graph, FlowErr>,
) -> Result<(), AllocError> {
    out.push_str("graph ")?;
    out.push_str(name)?;
    match graph {
        Ok(graph) => {
            out.push_str("\n")?;
            put_graph(out, &graph)
        }
        Err(FlowErr::TooManyOps) => out.push_str(" TooManyOps\n"),
        Err(FlowErr::Memory) => out.push_str(" Memory\n"),
    }
}

/// Puts the graphs of an extension.
fn put_extension(out: &mut String, alloc: Global, ext: &Extension) -> Result<(), AllocError>
    requires { IsWellFormed ext.now }
{
    for number in 0..ext.instructions.len() {
        if number < 64 {
            let name = ext.instructions.as_slice()[number].behaviour.name.as_str();
            put_behaviour(
                out,
                name,
                graph_of(alloc, ext, Which::Instruction(number as u8)),
            )?;
        }
    }
    for number in 0..ext.blocks.len() {
        if number < 8 {
            let name = ext.blocks.as_slice()[number].name.as_str();
            put_behaviour(out, name, graph_of(alloc, ext, Which::Block(number as u8)))?;
        }
    }
    Ok(())
}

/// Puts the graphs of a text, or why it has none.
pub fn put_graphs(out: &mut String, alloc: Global, bytes: &[u8]) -> Result<(), AllocError> {
    if bytes.len() >= TOO_MANY {
        return out.push_str("too long\n");
    }
    match elaborate(alloc, bytes) {
        Ok(ext) => put_extension(out, alloc, &ext),
        Err(_) => out.push_str("refused\n"),
    }
}
