ghost use Rattle.std.specs.Prelude.{◌≡◌, None, map, All, nat_lt, IfOk, IfErr, OnOk};
ghost use Rattle.ix_tree.specs.TypedView.{typed_tree, typed_instr};
ghost use Rattle.ix_typing.specs.Laws.{IsTyped};
ghost use Rattle.ix_extension.specs.Extensions.{view_extension};
ghost use Rattle.ix_extension.specs.Faults.{or_fault, fault_where, width_fault, twice_fault, count_pc_blocks, two_pc_blocks, first_fault, extension_fault};
ghost use Rattle.ix_extension.specs.WellFormed.{IsOf};
ghost use Rattle.ix_encode.specs.Telling.{Finds, Tells, HasWord, IsWhole};
ghost use Rattle.ix_encode.specs.Parted.{of_parts};

use crate::EncodeErr;
use crate::instruction::{blocks, instructions};
use crate::overlap::{check_base, check_overlaps};
use crate::parts::{Parts, split};
use crate::program_counter::count_pc_blocks;
use crate::rules::{check_fields, check_widths, is_too_large};
use crate::state::meant;
use ix_bits::{Memory, Name};
use ix_tree::{Extension, Typed};
use std::alloc::Global;

/// The extension that a typed text stands for, or the first rule on encodings and counts that it breaks.
pub fn encode(alloc: Global, typed: Typed) -> Result<Extension, EncodeErr>
    requires { IsTyped (typed_tree typed) }
    // The extension is that of the text, which breaks no rule.
    ensures extension { IfOk result (λ x. IsOf (typed_tree typed) (view_extension x)) }
    // The rule that is told is the first that the text breaks.
    ensures fault { IfErr result (λ e. Tells e (first_fault (typed_tree typed))) }
{
    let Typed {
        span: _,
        name,
        sections,
    } = typed;
    match split(alloc, sections) {
        Err(_) => Err(EncodeErr::Memory),
        Ok(parts) => match check_encodings(alloc, &parts) {
            Err(error) => Err(error),
            Ok(()) => checked(alloc, name, parts),
        },
    }
}

// Each instruction has 32 bits, and no bit of a field is given twice.
fn check_encodings(alloc: Global, parts: &Parts) -> Result<(), EncodeErr>
    requires { All HasWord parts.now.instructions.items }
    ensures { Finds result (or_fault (width_fault (map typed_instr parts.now.instructions.items)) (twice_fault (map typed_instr parts.now.instructions.items))) }
{
    match check_widths(alloc, parts.instructions.as_slice()) {
        Err(error) => Err(error),
        Ok(()) => check_fields(alloc, parts.instructions.as_slice()),
    }
}

// The extension of the parts, or the first rule that it breaks.
fn checked(alloc: Global, name: Name, parts: Parts) -> Result<Extension, EncodeErr>
    requires { All IsWhole parts.instructions.items }
    ensures extension { IfOk result (λ x. view_extension x ≡ of_parts name parts) }
    ensures sound { OnOk result (extension_fault (of_parts name parts) ≡ None) }
    ensures fault { IfErr result (λ e. Tells e (extension_fault (of_parts name parts))) }
{
    match extension(alloc, name, parts) {
        Err(_) => Err(EncodeErr::Memory),
        Ok(extension) => match check_extension(alloc, &extension) {
            Err(error) => Err(error),
            Ok(()) => Ok(extension),
        },
    }
}

// The extension of the parts.
fn extension(alloc: Global, name: Name, parts: Parts) -> Result<Extension, Memory>
    requires { All IsWhole parts.instructions.items }
    ensures { IfOk result (λ x. view_extension x ≡ of_parts name parts) }
{
    let states = meant(alloc, parts.states)?;
    let instructions = instructions(alloc, parts.instructions)?;
    let blocks = blocks(alloc, parts.blocks)?;
    Ok(Extension {
        name,
        registers: states.registers,
        tables: states.tables,
        instructions,
        blocks,
    })
}

// The rules on a whole extension.
fn check_extension(alloc: Global, extension: &Extension) -> Result<(), EncodeErr>
    ensures { Finds result (extension_fault (view_extension extension.now)) }
{
    if is_too_large(extension) {
        return Err(EncodeErr::TooMany);
    }
    match check_base(alloc, extension.instructions.as_slice()) {
        Err(error) => Err(error),
        Ok(()) => match check_overlaps(alloc, extension.instructions.as_slice()) {
            Err(error) => Err(error),
            Ok(()) => check_blocks(extension),
        },
    }
}

// No two always-blocks write PC.
fn check_blocks(extension: &Extension) -> Result<(), EncodeErr>
    ensures { Finds result (fault_where (nat_lt 1 (count_pc_blocks (view_extension extension.now).blocks)) two_pc_blocks) }
{
    if count_pc_blocks(extension.blocks.as_slice()) > 1 {
        Err(EncodeErr::TwoPcBlocks)
    } else {
        Ok(())
    }
}
