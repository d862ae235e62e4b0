ghost use Rattle.std.specs.Prelude.{◌≡◌, ◌+◌, map, All, OnOk};
ghost use Rattle.ix_tree.specs.TypedView.{typed_instr};
ghost use Rattle.ix_extension.specs.Extensions.{view_extension};
ghost use Rattle.ix_extension.specs.Faults.{width_fault, twice_fault, count_entries, is_too_large};
ghost use Rattle.ix_encode.specs.Telling.{Finds, HasWord};

use crate::EncodeErr;
use crate::encoding::{bits_of, has_field_twice};
use ix_bits::Name;
use ix_tree::{Extension, Table, TypedInstr};
use std::alloc::Global;

/// The greatest counts of instructions, registers, always-blocks, and entries of all tables.
const MOST_INSTRUCTIONS: usize = 64;

const MOST_REGISTERS: usize = 16;

const MOST_BLOCKS: usize = 8;

const MOST_ENTRIES: u128 = 4096;

/// Each instruction has 32 bits.
pub fn check_widths(alloc: Global, all: &[TypedInstr]) -> Result<(), EncodeErr>
    requires { All HasWord all.now }
    ensures { Finds result (width_fault (map typed_instr all.now)) }
{
    for instr in all {
        if bits_of(instr.pieces.as_slice()) != 32 {
            let a = Name::from_text(alloc, instr.name.as_str())?;
            return Err(EncodeErr::EncodingWidth { a });
        }
    }
    Ok(())
}

/// No bit of a field is given twice.
pub fn check_fields(alloc: Global, all: &[TypedInstr]) -> Result<(), EncodeErr>
    ensures { Finds result (twice_fault (map typed_instr all.now)) }
{
    for instr in all {
        if has_field_twice(instr.pieces.as_slice()) {
            let a = Name::from_text(alloc, instr.name.as_str())?;
            return Err(EncodeErr::FieldTwice { a });
        }
    }
    Ok(())
}

// The entries of all tables.
fn count_entries(tables: &[Table]) -> u128
    ensures { result ≡ count_entries tables.now }
{
    let mut count = 0;
    for table in tables {
        count += table.entries.len() as u128;
    }
    count
}

/// Whether the extension has more parts of a kind than it may have.
pub fn is_too_large(extension: &Extension) -> bool
    ensures { result ≡ is_too_large (view_extension extension.now) }
{
    extension.instructions.len() > MOST_INSTRUCTIONS
        || extension.registers.len() > MOST_REGISTERS
        || extension.blocks.len() > MOST_BLOCKS
        || count_entries(extension.tables.as_slice()) > MOST_ENTRIES
}
