ghost use Rattle.std.specs.Prelude.{◌≡◌, ◌≤◌, [], ◌∷◌, length, slice_get, OnOk};
ghost use Rattle.ix_ports.specs.Ports.{letters_of};
ghost use Rattle.ix_netgen.specs.Outputs.{out_cell, out_port, op_cells, op_ports, all_cells, all_ports, Puts};

use crate::kept::Kept;
use ix_bits::Memory;
use ix_cells::{Operand, Signal, name};
use ix_graph::{Kind, Op};
use ix_net::{Cell, Form, Net, Port};
use ix_ports::Letter;
use std::alloc::Global;

// The letter of an argument that is an output.
fn letter_at(kind: Kind, place: usize) -> Option<Letter>
    ensures { result ≡ slice_get (letters_of kind) place }
{
    match (kind, place) {
        (Kind::RdMem, 0) => Some(Letter::Address),
        (Kind::RdMem, 1) => Some(Letter::Condition),
        (Kind::WrMem, 0) => Some(Letter::Address),
        (Kind::WrMem, 1) => Some(Letter::Value),
        (Kind::WrMem, 2) => Some(Letter::Condition),
        (Kind::WrRD, 0) => Some(Letter::Value),
        (Kind::WrRD, 1) => Some(Letter::Condition),
        (Kind::WrPC, 0) => Some(Letter::Value),
        (Kind::WrPC, 1) => Some(Letter::Condition),
        (Kind::WrCustReg(_), 0) => Some(Letter::Value),
        (Kind::WrCustReg(_), 1) => Some(Letter::Condition),
        _ => None,
    }
}

fn output(
    alloc: Global,
    net: &mut Net,
    number: usize,
    letter: Letter,
    operand: Operand,
) -> Result<(), Memory>
    ensures { OnOk result (Puts net.old net.new (out_cell number letter operand ∷ []) (out_port number letter operand ∷ [])) }
{
    let signal = Signal::Output(number, letter);
    let width = operand.ty.width;
    let target = name(alloc, signal)?;
    let source = name(alloc, operand.signal)?;
    let port = name(alloc, signal)?;
    net.cells.push(Cell {
        target,
        width,
        form: Form::Copy(source),
    })?;
    net.outputs.push(Port { name: port, width })?;
    Ok(())
}

// The outputs of an operation.
fn outputs_of(
    alloc: Global,
    net: &mut Net,
    number: usize,
    kind: Kind,
    operands: &[Operand],
) -> Result<(), Memory>
    ensures { OnOk result (Puts net.old net.new (op_cells number (letters_of kind) operands.now) (op_ports number (letters_of kind) operands.now)) }
{
    for place in 0..operands.len() {
        if let Some(letter) = letter_at(kind, place) {
            output(alloc, net, number, letter, operands[place])?;
        }
    }
    Ok(())
}

/// The outputs of all operations.
pub(crate) fn outputs(alloc: Global, net: &mut Net, ops: &[Op], kept: &[Kept]) -> Result<(), Memory>
    requires { length kept.now ≡ length ops.now }
    ensures { OnOk result (Puts net.old net.new (all_cells 0 ops.now kept.now) (all_ports 0 ops.now kept.now)) }
{
    for number in 0..ops.len() {
        let operands = kept[number].operands.as_slice();
        outputs_of(alloc, net, number, ops[number].kind, operands)?;
    }
    Ok(())
}
