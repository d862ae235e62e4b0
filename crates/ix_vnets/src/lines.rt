ghost use Rattle.std.specs.Prelude.{◌≡◌, [], IfOk, MatchOption};
ghost use Rattle.std.specs.List.{AllZip};
ghost use Rattle.ix_vnets.specs.Tables.{IsCellBy, IsBankBy, HasCell, HasBank};
ghost use Rattle.ix_vnets.specs.Drives.{IsFirstNot};

use crate::fit::{fits, has};
use crate::right::{copy, form_of};
use crate::table::width_of;
use ix_bits::{List, Memory};
use ix_net::{Bank, Cell};
use ix_verilog::{Assign, Update};
use std::alloc::Global;
use std::collections::BTreeMap;

/// The cell of an `assign` line; None where its widths disagree.
fn cell_of(
    alloc: Global,
    widths: &BTreeMap<&str, u8>,
    assign: &Assign,
) -> Result<Option<Cell>, Memory>
    ensures { IfOk result (λ o. MatchOption o (HasCell widths.now assign.now → ⊥) (IsCellBy widths.now assign.now)) }
{
    let Some(width) = width_of(widths, &assign.target) else {
        return Ok(None);
    };
    let Some(form) = form_of(alloc, &assign.right)? else {
        return Ok(None);
    };
    if !fits(widths, width, &form) {
        return Ok(None);
    }
    let target = copy(alloc, &assign.target)?;
    Ok(Some(Cell {
        target,
        width,
        form,
    }))
}

/// The bank of an `if` line, whose target has this width.
fn bank(alloc: Global, width: u8, update: &Update) -> Result<Bank, Memory>
    ensures names { IfOk result (λ b. record { enable = b.enable; target = b.target; source = b.source } ≡ update.now) }
    ensures width { IfOk result (λ b. b.width ≡ width) }
{
    let target = copy(alloc, &update.target)?;
    let enable = copy(alloc, &update.enable)?;
    let source = copy(alloc, &update.source)?;
    Ok(Bank {
        target,
        width,
        enable,
        source,
    })
}

/// The bank of an `if` line; None where its widths disagree.
fn bank_of(
    alloc: Global,
    widths: &BTreeMap<&str, u8>,
    update: &Update,
) -> Result<Option<Bank>, Memory>
    ensures { IfOk result (λ o. MatchOption o (HasBank widths.now update.now → ⊥) (IsBankBy widths.now update.now)) }
{
    let Some(width) = width_of(widths, &update.target) else {
        return Ok(None);
    };
    if !has(widths, &update.enable, 1) {
        return Ok(None);
    }
    if !has(widths, &update.source, width) {
        return Ok(None);
    }
    let bank = bank(alloc, width, update)?;
    Ok(Some(bank))
}

/// Puts the cells of `assign` lines behind none; the number of the first line that has none.
pub(crate) fn put_cells(
    alloc: Global,
    widths: &BTreeMap<&str, u8>,
    assigns: &[Assign],
    cells: &mut List<Cell>,
) -> Result<Option<usize>, Memory>
    requires { cells.old ≡ [] }
    ensures { IfOk result (λ o. MatchOption o (AllZip (IsCellBy widths.now) assigns.now cells.new) (IsFirstNot (HasCell widths.now) assigns.now)) }
{
    for (number, assign) in assigns.iter().enumerate() {
        match cell_of(alloc, widths, assign)? {
            Some(cell) => cells.push(cell)?,
            None => return Ok(Some(number)),
        }
    }
    Ok(None)
}

/// Puts the banks of `if` lines behind none; the number of the first line that has none.
pub(crate) fn put_banks(
    alloc: Global,
    widths: &BTreeMap<&str, u8>,
    updates: &[Update],
    banks: &mut List<Bank>,
) -> Result<Option<usize>, Memory>
    requires { banks.old ≡ [] }
    ensures { IfOk result (λ o. MatchOption o (AllZip (IsBankBy widths.now) updates.now banks.new) (IsFirstNot (HasBank widths.now) updates.now)) }
{
    for (number, update) in updates.iter().enumerate() {
        match bank_of(alloc, widths, update)? {
            Some(bank) => banks.push(bank)?,
            None => return Ok(Some(number)),
        }
    }
    Ok(None)
}
