ghost use Rattle.std.specs.Prelude.{◌≡◌, [], All, IfOk, IfErr, MatchOption};
ghost use Rattle.std.specs.List.{AllZip};
ghost use Rattle.ix_vnets.specs.Names.{AllOnce, said, said_in};
ghost use Rattle.ix_vnets.specs.Finished.{IsFinished};
ghost use Rattle.ix_vnets.specs.Nets.{IsCellOf, IsBankOf, IsMadeOf, Puts};
ghost use Rattle.ix_vnets.specs.Drives.{IsFirstNot, DriveFits, drives_in, IsTold};

use crate::error::NetErr;
use crate::lines::{put_banks, put_cells};
use crate::table::widths_of;
use ix_bits::{List, Memory, Name};
use ix_net::{Bank, Cell, Net, Port};
use ix_verilog::Source;
use std::alloc::Global;

/// Copies of ports.
fn copies(alloc: Global, ports: &[Port]) -> Result<List<Port>, Memory>
    ensures { IfOk result (λ copies. copies ≡ ports.now) }
{
    let mut copies = List::new(alloc);
    for port in ports {
        let name = Name::from_text(alloc, port.name.as_str())?;
        copies.push(Port {
            name,
            width: port.width,
        })?;
    }
    Ok(copies)
}

/// Puts the cells and banks of a module behind none; the number of the first `assign` or `if` line whose widths disagree.
fn put_drives(
    alloc: Global,
    source: &Source,
    cells: &mut List<Cell>,
    banks: &mut List<Bank>,
) -> Result<Option<usize>, Memory>
    requires finished { IsFinished source.now }
    requires once { AllOnce (said_in source.now) }
    requires no_cells { cells.old ≡ [] }
    requires no_banks { banks.old ≡ [] }
    ensures { IfOk result (λ o. MatchOption o
        (AllZip (IsCellOf source.now) source.now.assigns cells.new × AllZip (IsBankOf source.now) source.now.updates banks.new)
        (IsFirstNot DriveFits (drives_in source.now))) }
{
    let widths = widths_of(alloc, source)?;
    if let Some(number) = put_cells(alloc, &widths, source.assigns.as_slice(), cells)? {
        return Ok(Some(number));
    }
    match put_banks(alloc, &widths, source.updates.as_slice(), banks)? {
        Some(number) => Ok(Some(source.assigns.len() + number)),
        None => Ok(None),
    }
}

/// A net of these cells and banks.
fn joined(
    alloc: Global,
    source: &Source,
    cells: List<Cell>,
    banks: List<Bank>,
) -> Result<Net, Memory>
    ensures { IfOk result (λ net. net ≡ record {
      name = source.now.name;
      inputs = source.now.inputs;
      cells = cells;
      banks = banks;
      outputs = source.now.outputs;
    }) }
{
    let name = Name::from_text(alloc, source.name.as_str())?;
    let inputs = copies(alloc, source.inputs.as_slice())?;
    let outputs = copies(alloc, source.outputs.as_slice())?;
    Ok(Net {
        name,
        inputs,
        cells,
        banks,
        outputs,
    })
}

/// Puts the net of a module behind others; the number of the first `assign` or `if` line whose widths disagree.
fn put_net(alloc: Global, source: &Source, nets: &mut List<Net>) -> Result<Option<usize>, Memory>
    requires finished { IsFinished source.now }
    requires once { AllOnce (said_in source.now) }
    ensures { IfOk result (λ o. MatchOption o
        (Puts source.now nets.old nets.new)
        (IsFirstNot DriveFits (drives_in source.now))) }
{
    let mut cells = List::new(alloc);
    let mut banks = List::new(alloc);
    if let Some(number) = put_drives(alloc, source, &mut cells, &mut banks)? {
        return Ok(Some(number));
    }
    let net = joined(alloc, source, cells, banks)?;
    nets.push(net)?;
    Ok(None)
}

/// The net of each module, or the first line whose widths disagree.
pub fn nets_in(alloc: Global, modules: &[Source]) -> Result<List<Net>, NetErr>
    requires finished { All IsFinished modules.now }
    requires once { AllOnce (said [] modules.now) }
    ensures nets { IfOk result (AllZip IsMadeOf modules.now) }
    ensures misfit { IfErr result (IsTold modules.now) }
{
    let mut nets = List::new(alloc);
    for (module, source) in modules.iter().enumerate() {
        match put_net(alloc, source, &mut nets) {
            Ok(None) => {}
            Ok(Some(drive)) => return Err(NetErr::Misfit { module, drive }),
            Err(_) => return Err(NetErr::Memory),
        }
    }
    Ok(nets)
}
