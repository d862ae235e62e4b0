ghost use Rattle.std.specs.Prelude.{◌≡◌, ◌<◌, ◌≤◌, ◌+◌, IfOk};
ghost use Rattle.ix_netgen.specs.Standing.{next_bank, with_bank, Holds, IsStored};

use ix_bits::Memory;
use ix_cells::{Signal, Wire, name};
use ix_net::{Bank, Net};
use std::alloc::Global;

// A bank that takes over at the end of a time what the wire shows.
fn store(alloc: Global, net: &mut Net, number: usize, time: u8, wire: Wire) -> Result<Wire, Memory>
    requires { time < 255 }
    ensures { IfOk result (λ next. IsStored net.old net.new number time wire next) }
{
    let signal = Signal::Register(number, time + 1);
    let target = name(alloc, signal)?;
    let enable = name(alloc, Signal::Enable(time))?;
    let source = name(alloc, wire.signal)?;
    net.banks.push(Bank {
        target,
        width: wire.width,
        enable,
        source,
    })?;
    Ok(Wire {
        signal,
        width: wire.width,
    })
}

/// Holds the result of an operation from its time up to the last one, over each time boundary by one bank.
pub(crate) fn hold(
    alloc: Global,
    net: &mut Net,
    number: usize,
    wire: Wire,
    from: u8,
    last: u8,
) -> Result<Vec<Wire>, Memory>
    requires order { from ≤ last }
    requires most { last < 255 }
    ensures { IfOk result (λ wires. Holds number wire from last net.old net.new wires.items) }
{
    let mut wires = Vec::new(alloc);
    wires.push(wire)?;
    let mut current = wire;
    for time in from..last {
        current = store(alloc, net, number, time, current)?;
        wires.push(current)?;
    }
    Ok(wires)
}
