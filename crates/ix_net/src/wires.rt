ghost use Rattle.std.specs.Prelude.{◌≡◌, ◌↔◌, IsTrue, IfOk, MatchOption, All, map};
ghost use Rattle.ix_net.specs.Signals.{signals, number_of};
ghost use Rattle.ix_net.specs.Valid.{IsValid};
ghost use Rattle.ix_net.specs.Wiring.{cell_gate, latch_of, outputs_at, IsWiring, IsCellPort};
ghost use Rattle.ix_net.specs.Wiring.{FormsFit, BankFits, EnablesFit, SourcesFit};

use crate::gates::{Gate, resolve};
use crate::netlist::{Bank, Cell, Net, Port};
use crate::ordering::order_of;
use crate::tables::{Table, are_distinct};
use ix_bits::Memory;
use std::alloc::Global;

/// The names of a bank by number.
#[derive(Clone, Copy, Debug)]
pub struct Latch {
    pub enable: usize,
    pub source: usize,
}

/// A valid net by number: its signals are the inputs, the cells and the banks, in this order.
#[derive(Debug, Drop)]
pub struct Wiring {
    /// The width of each signal, in bits.
    pub widths: Vec<u8>,
    /// The right side of each cell.
    pub gates: Vec<Gate>,
    /// The cells, each behind those that it reads.
    pub order: Vec<usize>,
    /// The enable and the source of each bank.
    pub latches: Vec<Latch>,
    /// The signal of each output.
    pub outputs: Vec<usize>,
}

fn gates_of(alloc: Global, table: &Table, cells: &[Cell]) -> Result<Option<Vec<Gate>>, Memory>
    ensures { IfOk result (λ o.
        MatchOption o (FormsFit table.now cells.now → ⊥)
        (λ v. FormsFit table.now cells.now × (v.items ≡ map (cell_gate table.now) cells.now))) }
{
    let mut gates = Vec::with_capacity(alloc, cells.len())?;
    for cell in cells {
        match resolve(table, cell.width, &cell.form) {
            Some(gate) => gates.push(gate)?,
            None => return Ok(None),
        }
    }
    Ok(Some(gates))
}

fn resolve_bank(table: &Table, bank: &Bank) -> Option<Latch>
    ensures { MatchOption result (BankFits table.now bank.now → ⊥)
        (λ r. BankFits table.now bank.now × (r ≡ latch_of table.now bank.now)) }
{
    let enable = table.of_width(&bank.enable, 1)?;
    let source = table.of_width(&bank.source, bank.width)?;
    Some(Latch { enable, source })
}

fn latches_of(alloc: Global, table: &Table, banks: &[Bank]) -> Result<Option<Vec<Latch>>, Memory>
    ensures { IfOk result (λ o.
        MatchOption o (EnablesFit table.now banks.now × SourcesFit table.now banks.now → ⊥)
        (λ v. EnablesFit table.now banks.now × SourcesFit table.now banks.now × (v.items ≡ map (latch_of table.now) banks.now))) }
{
    let mut latches = Vec::with_capacity(alloc, banks.len())?;
    for bank in banks {
        match resolve_bank(table, bank) {
            Some(latch) => latches.push(latch)?,
            None => return Ok(None),
        }
    }
    Ok(Some(latches))
}

/// The number of an output that is the target of a cell with its width, where `inputs` signals stand before the cells.
fn driven(table: &Table, output: &Port, inputs: usize, cells: usize) -> Option<usize>
    ensures { MatchOption result (IsCellPort table.now inputs cells output.now → ⊥)
        (λ i. IsCellPort table.now inputs cells output.now × (i ≡ number_of table.now output.now.name)) }
{
    let place = table.of_width(&output.name, output.width)?;
    if place < inputs || place - inputs >= cells {
        return None;
    }
    Some(place)
}

fn outputs_of(
    alloc: Global,
    table: &Table,
    outputs: &[Port],
    inputs: usize,
    cells: usize,
) -> Result<Option<Vec<usize>>, Memory>
    ensures { IfOk result (λ o.
        MatchOption o (All (IsCellPort table.now inputs cells) outputs.now → ⊥)
        (λ v. All (IsCellPort table.now inputs cells) outputs.now × (v.items ≡ outputs_at table.now outputs.now))) }
{
    let mut places = Vec::with_capacity(alloc, outputs.len())?;
    for output in outputs {
        match driven(table, output, inputs, cells) {
            Some(place) => places.push(place)?,
            None => return Ok(None),
        }
    }
    Ok(Some(places))
}

/// A net by number, with an order of its cells; None exactly where the net is not valid.
pub fn wire(alloc: Global, net: &Net) -> Result<Option<Wiring>, Memory>
    ensures { IfOk result (λ o. MatchOption o (IsValid net.now → ⊥) (λ w. IsValid net.now × IsWiring net.now w)) }
{
    let Some(table) = Table::of_net(alloc, net)? else {
        return Ok(None);
    };
    let inputs = net.inputs.len();
    if !are_distinct(alloc, net.outputs.as_slice())? {
        return Ok(None);
    }
    let Some(outputs) = outputs_of(
        alloc,
        &table,
        net.outputs.as_slice(),
        inputs,
        net.cells.len(),
    )?
    else {
        return Ok(None);
    };
    let Some(latches) = latches_of(alloc, &table, net.banks.as_slice())? else {
        return Ok(None);
    };
    let Some(gates) = gates_of(alloc, &table, net.cells.as_slice())? else {
        return Ok(None);
    };
    let Some(order) = order_of(alloc, &gates, inputs)? else {
        return Ok(None);
    };
    let widths = table.widths(alloc)?;
    Ok(Some(Wiring {
        widths,
        gates,
        order,
        latches,
        outputs,
    }))
}

/// Whether a net is valid: its names follow the rule for names, nothing is driven twice, each operand is declared, the
/// widths agree, and no cell depends on itself without a bank.
pub fn is_valid(alloc: Global, net: &Net) -> Result<bool, Memory>
    ensures { IfOk result (λ valid. IsTrue valid ↔ IsValid net.now) }
{
    match wire(alloc, net)? {
        Some(_) => Ok(true),
        None => Ok(false),
    }
}
