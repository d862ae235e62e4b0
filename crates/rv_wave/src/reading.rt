ghost use Rattle.std.specs.Prelude.{◌≡◌, ◌<◌, ◌^◌, length, take, IfOk};
ghost use Rattle.ix_dump.specs.Dump.{raws, widths, dump_widths};
ghost use Rattle.rv_nets.specs.Modules.{ports_shown};
ghost use Rattle.rv_ports.specs.Driven.{ports_of};

use ix_bits::{Bits, Memory};
use rv_pipe::Machine;
use std::alloc::Global;

/// Room for the values of so many ports.
pub fn make_values(alloc: Global, count: u32) -> Result<Vec<Bits>, Memory>
    ensures { IfOk result (λ values. length values.items ≡ count) }
{
    let zero = Bits { raw: 0, width: 1 };
    let values = vec![in alloc; zero; count as usize]?;
    Ok(values)
}

/// Reads what each port shows in the last row, by number. Takes no memory.
pub fn read_ports(machine: &Machine<'_>, now: &mut [Bits])
    requires long { length now.old ≡ length (ports_of machine.now.setting.design.nets) }
    requires few { length now.old < 2 ^ 32 }
    ensures long { length now.new ≡ length now.old }
    ensures values { raws now.new ≡ take (length now.new) (ports_shown machine.now.modules) }
    ensures widths { widths now.new ≡ dump_widths machine.now.setting.design.nets }
{
    for k in 0..now.len() {
        let shown = machine.port(k as u32);
        now[k] = shown;
    }
}
