ghost use Rattle.std.specs.Prelude.{◌≡◌, ◌&&◌, if◌then◌else◌};
ghost use Rattle.rv_seq.specs.declared.commit.Slot.TheVariants.{Absent};
ghost use Rattle.rv_seq.specs.Commits.{slot_of, with_slot};
ghost use Rattle.rv_trace.specs.Trace.{has_serial};
ghost use Rattle.rv_lawful.specs.Settings.{Setting};
ghost use Rattle.rv_lawful.specs.Future.{early_write, late_write, with_writes, going_on as specified_going_on, leaves_execute, after_unit};
ghost use Rattle.rv_past.specs.Past.{late_by, early_by};

use crate::due::Due;
use ix_bits::Bits;
use rv_asks::Asks;
use rv_core::Shape;
use rv_seq::{Commit, Slot, StepAnswer, put_custom, put_customs};
use rv_trace::{Cell, Row};

// Is the serial among the flushed ones?
fn is_among(flushed: &[Option<u32>; 5], serial: u32) -> bool
    ensures { result ≡ has_serial flushed.now serial }
{
    for one in flushed {
        if *one == Some(serial) {
            return true;
        }
    }
    false
}

/// A cell, if it goes on.
pub fn going_on(row: &Row, cell: Option<Cell>) -> Option<Cell>
    ensures { result ≡ specified_going_on row.now cell }
{
    match cell {
        None => None,
        Some(cell) => {
            if cell.hold.is_some() || is_among(&row.flushed, cell.serial) {
                None
            } else {
                Some(cell)
            }
        }
    }
}

/// The cell that leaves EX in the row.
pub fn executing(shape: Shape, row: &Row) -> Option<Cell>
    ensures { (k : Setting) → k.shape ≡ shape → result ≡ leaves_execute k row.now }
{
    going_on(row, row.cells[usize::from(shape.ex)])
}

// Writes a custom register as blocks do.
fn put_block(register: &mut Bits, block: &Option<Bits>)
    ensures { register.new ≡ with_slot register.old (slot_of block.now) }
{
    if let Some(value) = block {
        *register = *value;
    }
}

// Writes what a cell writes to a custom register as it leaves EX: the blocks alone, where its own
// write is still to come.
fn put_early_in(register: &mut Bits, is_pending: bool, block: &Option<Bits>, slot: &Slot<Bits>)
    ensures { register.new ≡ with_slot register.old (if is_pending then slot_of block.now else slot.now) }
{
    if is_pending {
        put_block(register, block);
    } else {
        put_custom(register, slot);
    }
}

// Writes what a cell writes to a custom register late.
fn put_late_in(register: &mut Bits, is_late: bool, is_own: bool, slot: &Slot<Bits>)
    ensures { register.new ≡ with_slot register.old (if is_late && is_own then slot.now else Absent) }
{
    if is_late && is_own {
        put_custom(register, slot);
    }
}

// Makes what a cell with this record writes as it leaves EX.
fn put_early_of(asks: &Asks, blocks: &[Option<Bits>; 16], commit: &Commit, file: &mut [Bits; 16])
    ensures { file.new ≡ with_writes (early_write asks.now blocks.now commit.now) file.old }
{
    for number in 0..16usize {
        let is_pending = asks.late_customs[number] || asks.spawned_customs[number];
        put_early_in(
            &mut file[number],
            is_pending,
            &blocks[number],
            &commit.custom[number],
        );
    }
}

// Makes what a cell with this record writes late.
fn put_late_of(asks: &Asks, own: &[bool; 16], commit: &Commit, file: &mut [Bits; 16])
    ensures { file.new ≡ with_writes (late_write asks.now own.now commit.now) file.old }
{
    for number in 0..16usize {
        put_late_in(
            &mut file[number],
            asks.late_customs[number],
            own[number],
            &commit.custom[number],
        );
    }
}

// Makes the writes of a cell that leaves EX, where one does, of which this is the step.
fn put_early(due: &Due, cell: Option<Cell>, file: &mut [Bits; 16])
    ensures { file.new ≡ early_by due.now cell file.old }
{
    if cell.is_some() {
        if let StepAnswer::Done(commit) = &due.step.answer {
            put_early_of(&due.asks, &due.step.blocks, commit, file);
        }
    }
}

// Makes the late writes of what retires, where something does, of which this is the step.
fn put_late(due: &Due, retired: &Option<(u32, Commit)>, file: &mut [Bits; 16])
    ensures { file.new ≡ late_by due.now retired.now file.old }
{
    if retired.is_some() {
        if let StepAnswer::Done(commit) = &due.step.answer {
            put_late_of(&due.asks, &due.step.own, commit, file);
        }
    }
}

// Makes what a unit writes, if one does.
fn put_unit(written: &Option<(u32, u8, Slot<u32>, [Slot<Bits>; 16])>, file: &mut [Bits; 16])
    ensures { file.new ≡ after_unit written.now file.old }
{
    if let Some(fields) = written {
        put_customs(file, &fields.3);
    }
}

/// Makes what a row writes in the future file: what a unit writes, what retires writes late, and what
/// the cell that leaves EX writes.
pub fn file_row(row: &Row, cell: Option<Cell>, retired: &Due, executed: &Due, file: &mut [Bits; 16])
    ensures { file.new ≡ early_by executed.now cell (late_by retired.now row.now.retired (after_unit row.now.written file.old)) }
{
    put_unit(&row.written, file);
    put_late(retired, &row.retired, file);
    put_early(executed, cell, file);
}
