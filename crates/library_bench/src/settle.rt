ghost use Rattle.std.specs.Prelude.{◌≡◌};

use ix_bits::{Bits, List, Memory, Name};
use ix_net::{Cell, Form, Net, Port, is_valid};
use ix_neteval::{Sim, prepare};
use std::alloc::Global;
use std::io;

/// The name of a number.
fn name(alloc: Global, number: u32) -> Result<Name, Memory> {
    let Ok(text) = format!(in alloc; "n{number}") else {
        return Err(Memory);
    };
    if text.len() > 80 {
        return Err(Memory);
    }
    Name::from_text(alloc, text.as_str())
}

/// The cells number 1 and on read the input, which is number 0; those from 8 on read the one
/// before, and the one seven before.
fn form(alloc: Global, k: u32) -> Result<Form, Memory> {
    let a = name(alloc, if k < 8 { 0 } else { k - 1 })?;
    let b = name(alloc, if k < 8 { 0 } else { k - 7 })?;
    Ok(match k % 6 {
        0 => Form::Add(a, b),
        1 => Form::Xor(a, b),
        2 => Form::Sub(a, b),
        3 => Form::Mul(a, b),
        4 => Form::Or(a, b),
        _ => Form::Not(a),
    })
}

/// The cells are listed from the last to the first.
fn cells(alloc: Global, count: u32) -> Result<List<Cell>, Memory> {
    let mut cells = Vec::new(alloc);
    for i in 0..count {
        let k = count - i;
        cells.push(Cell {
            target: name(alloc, k)?,
            width: 32,
            form: form(alloc, k)?,
        })?;
    }
    Ok(List::from_vec(cells))
}

/// The list of one port.
fn port(alloc: Global, number: u32) -> Result<List<Port>, Memory> {
    let mut ports = List::new(alloc);
    ports.push(Port {
        name: name(alloc, number)?,
        width: 32,
    })?;
    Ok(ports)
}

/// The net of so many cells, whose output is the last one.
fn net(alloc: Global, count: u32) -> Result<Net, Memory> {
    Ok(Net {
        name: Name::from_text(alloc, "bench_0")?,
        inputs: port(alloc, 0)?,
        cells: cells(alloc, count)?,
        banks: List::new(alloc),
        outputs: port(alloc, count)?,
    })
}

/// Settles a net with a number from 0 on in each cycle.
fn settle(sim: &mut Sim<'_>, cycles: u32)
    ensures { sim.new.net ≡ sim.old.net }
{
    for input in 0..cycles {
        let inputs = [Bits {
            raw: u128::from(input),
            width: 32,
        }];
        if sim.accepts(&inputs) {
            sim.settle(&inputs);
            sim.clock();
        }
    }
}

/// The output of the last cycle, where the net is valid.
fn last_output(alloc: Global, net: &Net, cycles: u32) -> Result<Option<u128>, Memory> {
    if !is_valid(alloc, net)? || net.outputs.len() != 1 {
        return Ok(None);
    }
    let mut sim = prepare(alloc, net)?;
    settle(&mut sim, cycles);
    Ok(Some(sim.output(0).raw))
}

/// The output of a net of so many cells behind so many cycles, where the net is valid.
fn measure(alloc: Global, count: u32, cycles: u32) -> Result<Option<u128>, Memory> {
    let net = net(alloc, count)?;
    last_output(alloc, &net, cycles)
}

/// Prepares a net of so many cells once, settles it so many times, and prints the output of the
/// last cycle.
pub(crate) fn run(rt: &impl Print, alloc: Global, count: u32, cycles: u32) -> io::Result<()> {
    match measure(alloc, count, cycles) {
        Ok(Some(raw)) => println!(rt; "{raw}"),
        Ok(None) => println!(rt; "not valid"),
        Err(Memory) => println!(rt; "no memory"),
    }
}
