ghost use Rattle.std.specs.Prelude.{◌≡◌, ◌≤◌, ◌+◌, ◌++◌, length, IfOk, OnOk};
ghost use Rattle.ix_ports.specs.Ports.{module_name, last_from, enable_ports, read_port, read_ports};
ghost use Rattle.ix_graph.specs.Roles.{role_of};

use ix_bits::{Memory, Name};
use ix_cells::{Signal, name};
use ix_graph::{Op, Role, kind_role};
use ix_net::Port;
use std::alloc::Global;

/// The name of the module of a behaviour.
pub(crate) fn module(alloc: Global, behaviour: &Name) -> Result<Name, Memory>
    requires { length behaviour.now ≤ 76 }
    ensures { IfOk result (λ name. name ≡ module_name behaviour.now) }
{
    let word = behaviour.as_str();
    let text = format!(in alloc; "ixt_{word}")?;
    Name::from_text(alloc, text.as_str())
}

/// The greatest of the times of a schedule; the stage of operands, `rd`, where there is none.
pub fn last_of(times: &[u8], rd: u8) -> u8
    ensures { result ≡ last_from rd times.now }
{
    let mut last = rd;
    for time in times {
        last = last.max(*time);
    }
    last
}

/// The inputs that move a token on.
pub(crate) fn enables(alloc: Global, rd: u8, last: u8) -> Result<Vec<Port>, Memory>
    ensures { IfOk result (λ ports. ports.items ≡ enable_ports rd last) }
{
    let mut ports = Vec::new(alloc);
    for time in rd..last {
        let port = name(alloc, Signal::Enable(time))?;
        ports.push(Port {
            name: port,
            width: 1,
        })?;
    }
    Ok(ports)
}

fn read(alloc: Global, ports: &mut Vec<Port>, number: usize, op: &Op) -> Result<(), Memory>
    ensures { OnOk result (ports.new.items ≡ ports.old.items ++ read_port number op.now (role_of op.now.kind)) }
{
    match kind_role(&op.kind) {
        Role::Read => {
            let port = name(alloc, Signal::Input(number))?;
            ports.push(Port {
                name: port,
                width: op.ty.width,
            })?;
            Ok(())
        }
        Role::Compute => Ok(()),
        Role::Write => Ok(()),
    }
}

/// The inputs of the reads.
pub(crate) fn reads(alloc: Global, ports: &mut Vec<Port>, ops: &[Op]) -> Result<(), Memory>
    ensures { OnOk result (ports.new.items ≡ ports.old.items ++ read_ports 0 ops.now) }
{
    for number in 0..ops.len() {
        read(alloc, ports, number, &ops[number])?;
    }
    Ok(())
}
