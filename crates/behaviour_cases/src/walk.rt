ghost use Rattle.std.specs.Prelude.{◌<◌};

use crate::compute::{Number, computed, cut};
use crate::done::Done;
use effect_cases::Case;
use ix_bits::{Bits, Memory, Ty};
use ix_graph::{Arg, Graph, Kind, Op};
use std::alloc::Global;

const NOTHING: Done = Done {
    rd: None,
    pc: None,
    custom: [None; 16],
    load: None,
    store: None,
};

/// The number of an argument, from those of the operations before.
fn argument(graph: &Graph, values: &[u128], arg: Arg) -> Number {
    match arg {
        Arg::Const(ty, bits) => Number { ty, raw: bits.raw },
        Arg::Op(place) => {
            let place = place as usize;
            match (graph.ops.as_slice().get(place), values.get(place)) {
                (Some(op), Some(value)) => Number {
                    ty: op.ty,
                    raw: *value,
                },
                _ => zero(),
            }
        }
    }
}

fn zero() -> Number {
    Number {
        ty: Ty {
            signed: false,
            width: 1,
        },
        raw: 0,
    }
}

/// The numbers of an operation's arguments, and zeros behind them.
fn arguments(graph: &Graph, values: &[u128], op: &Op) -> [Number; 3] {
    let mut all = [zero(); 3];
    for (place, arg) in op.args.as_slice().iter().enumerate() {
        if place < 3 {
            all[place] = argument(graph, values, *arg);
        }
    }
    all
}

fn table_of<'a>(graph: &'a Graph, kind: &Kind) -> &'a [Bits] {
    match kind {
        Kind::Rom(number) => match graph.tables.as_slice().get(usize::from(*number)) {
            Some(table) => table.as_slice(),
            None => &[],
        },
        _ => &[],
    }
}

/// The place of a custom register; there are 16 at most.
fn custom_place(number: u8) -> usize
    ensures { result < 16 }
{
    usize::from(number % 16)
}

/// What a load gives, and that it was.
fn loaded(done: &mut Done, case: &Case, args: [Number; 3], ty: Ty) -> u128 {
    let [address, condition, _] = args;
    if condition.raw == 0 {
        return 0;
    }
    done.load = Some((address.raw, ty.width / 8));
    if address.raw == u128::from(case.at) {
        cut(u128::from(case.bytes), ty)
    } else {
        0
    }
}

/// Writes a register where its condition holds; the first x register is a target like any other.
fn write(done: &mut Done, kind: &Kind, args: [Number; 3]) {
    let [value, condition, _] = args;
    if condition.raw == 0 {
        return;
    }
    match kind {
        Kind::WrRD => done.rd = Some(value.raw),
        Kind::WrPC => done.pc = Some(value.raw),
        Kind::WrCustReg(number) => done.custom[custom_place(*number)] = Some(value.raw),
        _ => {}
    }
}

fn store(done: &mut Done, args: [Number; 3]) {
    let [address, value, condition] = args;
    if condition.raw != 0 {
        done.store = Some((address.raw, value.ty.width / 8, value.raw));
    }
}

/// The value of an operation; what it reads of memory or writes is put down.
fn value_of(graph: &Graph, case: &Case, done: &mut Done, values: &[u128], op: &Op) -> u128 {
    let args = arguments(graph, values, op);
    match &op.kind {
        Kind::RdInstr => u128::from(case.word),
        Kind::RdRS1 => u128::from(case.rs1),
        Kind::RdRS2 => u128::from(case.rs2),
        Kind::RdPC => u128::from(case.pc),
        Kind::RdCustReg(number) => cut(case.custom[custom_place(*number)], op.ty),
        Kind::RdMem => loaded(done, case, args, op.ty),
        Kind::WrMem => {
            store(done, args);
            0
        }
        Kind::WrRD | Kind::WrPC | Kind::WrCustReg(_) => {
            write(done, &op.kind, args);
            0
        }
        kind => computed(kind, args, table_of(graph, kind), op.ty),
    }
}

/// What the operations do in a case, one after another.
pub fn done_by(alloc: Global, graph: &Graph, case: &Case) -> Result<Done, Memory> {
    let mut values = Vec::new(alloc);
    let mut done = NOTHING;
    for op in graph.ops.as_slice() {
        let value = value_of(graph, case, &mut done, &values, op);
        values.push(value)?;
    }
    Ok(done)
}
