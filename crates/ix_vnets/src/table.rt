ghost use Rattle.std.specs.Prelude.{◌≡◌, ◌↔◌, ◌++◌, [], IsTrue, IfOk, OnOk, Some, List};
ghost use Rattle.ix_net.specs.declared.netlist.Port.{Port as port_type};
ghost use Rattle.ix_verilog.specs.Subset.{declared};
ghost use Rattle.ix_vnets.specs.WidthTables.{AreApart, Holds, found};

use ix_bits::{Memory, Name};
use ix_net::Port;
use ix_verilog::Source;
use std::alloc::Global;
use std::collections::BTreeMap;

/// The width of a name, in bits.
pub fn width_of(widths: &BTreeMap<&str, u8>, name: &Name) -> Option<u8>
    ensures { result ≡ found widths.now name.now }
{
    widths.get(name.as_str()).copied()
}

/// Puts the widths of ports into a map.
fn put<'a>(widths: &mut BTreeMap<&'a str, u8>, ports: &'a [Port]) -> Result<(), Memory>
    ensures { OnOk result ((front : List port_type) → AreApart (front ++ ports.now) → Holds front widths.old → Holds (front ++ ports.now) widths.new) }
{
    for port in ports {
        widths.insert(port.name.as_str(), port.width)?;
    }
    Ok(())
}

/// The widths of what a module declares.
pub fn widths_of<'a>(alloc: Global, source: &'a Source) -> Result<BTreeMap<&'a str, u8>, Memory>
    ensures { IfOk result (λ m. AreApart (declared source.now) → Holds (declared source.now) m) }
{
    let mut widths = BTreeMap::new(alloc);
    put(&mut widths, source.inputs.as_slice())?;
    put(&mut widths, source.outputs.as_slice())?;
    put(&mut widths, source.wires.as_slice())?;
    put(&mut widths, source.registers.as_slice())?;
    Ok(widths)
}
