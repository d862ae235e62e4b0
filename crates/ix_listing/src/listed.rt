ghost use Rattle.std.specs.Prelude.{◌≡◌, ◌++◌, codes, string_bytes, IfOk, OnOk};
ghost use Rattle.std.specs.List.{flat_map};
ghost use Rattle.ix_extension.specs.Extensions.{view_behaviour, view_instruction, view_extension};
ghost use Rattle.ix_listing.specs.Listing.{register_line, registers_text, table_line, bits_text, piece_line, instruction_line, instruction_text, block_line, listing_text};

use crate::put::{put, put_named, put_number, put_type, put_word};
use ix_bits::Memory;
use ix_tree::{Behaviour, Extension, Instruction, Piece, Register, Table};
use std::alloc::Global;

fn put_register(out: &mut String, number: u64, register: &Register) -> Result<(), Memory>
    ensures { OnOk result (string_bytes out.new ≡ string_bytes out.old ++ register_line number register.now) }
{
    put(out, "register c")?;
    put_number(out, number)?;
    put(out, " ")?;
    put(out, register.name.as_str())?;
    put(out, " ")?;
    put_type(out, register.ty)?;
    put(out, "\n")
}

fn put_registers(out: &mut String, registers: &[Register]) -> Result<(), Memory>
    ensures { OnOk result (string_bytes out.new ≡ string_bytes out.old ++ registers_text 0 registers.now) }
{
    for (number, register) in registers.iter().enumerate() {
        put_register(out, number as u64, register)?;
    }
    Ok(())
}

fn put_table(out: &mut String, table: &Table) -> Result<(), Memory>
    ensures { OnOk result (string_bytes out.new ≡ string_bytes out.old ++ table_line table.now) }
{
    put(out, "table ")?;
    put(out, table.name.as_str())?;
    put(out, " ")?;
    put_type(out, table.ty)?;
    put(out, " ")?;
    put_number(out, table.entries.len() as u64)?;
    put(out, "\n")
}

fn put_tables(out: &mut String, tables: &[Table]) -> Result<(), Memory>
    ensures { OnOk result (string_bytes out.new ≡ string_bytes out.old ++ flat_map table_line tables.now) }
{
    for table in tables {
        put_table(out, table)?;
    }
    Ok(())
}

/// Appends where a piece stands, and the end of the line.
fn put_bits(out: &mut String, piece: &Piece) -> Result<(), Memory>
    ensures { OnOk result (string_bytes out.new ≡ string_bytes out.old ++ bits_text piece.now) }
{
    put_number(out, u64::from(piece.hi))?;
    put(out, " ")?;
    put_number(out, u64::from(piece.lo))?;
    put(out, " at ")?;
    put_number(out, u64::from(piece.at))?;
    put(out, "\n")
}

fn put_piece(out: &mut String, piece: &Piece) -> Result<(), Memory>
    ensures { OnOk result (string_bytes out.new ≡ string_bytes out.old ++ piece_line piece.now) }
{
    put(out, "piece ")?;
    put(out, piece.field.as_str())?;
    put(out, " ")?;
    put_bits(out, piece)
}

fn put_pieces(out: &mut String, pieces: &[Piece]) -> Result<(), Memory>
    ensures { OnOk result (string_bytes out.new ≡ string_bytes out.old ++ flat_map piece_line pieces.now) }
{
    for piece in pieces {
        put_piece(out, piece)?;
    }
    Ok(())
}

/// Appends the line of an instruction, without its pieces.
fn put_encoding(out: &mut String, instruction: &Instruction) -> Result<(), Memory>
    ensures { OnOk result (string_bytes out.new ≡ string_bytes out.old ++ instruction_line (view_instruction instruction.now)) }
{
    put(out, "instruction ")?;
    put(out, instruction.behaviour.name.as_str())?;
    put(out, " mask ")?;
    put_word(out, instruction.mask)?;
    put(out, " match ")?;
    put_word(out, instruction.matches)?;
    put(out, "\n")
}

fn put_instruction(out: &mut String, instruction: &Instruction) -> Result<(), Memory>
    ensures { OnOk result (string_bytes out.new ≡ string_bytes out.old ++ instruction_text (view_instruction instruction.now)) }
{
    put_encoding(out, instruction)?;
    put_pieces(out, instruction.pieces.as_slice())
}

fn put_instructions(out: &mut String, instructions: &[Instruction]) -> Result<(), Memory>
    ensures { OnOk result (string_bytes out.new ≡ string_bytes out.old ++ flat_map (λ i. instruction_text (view_instruction i)) instructions.now) }
{
    for instruction in instructions {
        put_instruction(out, instruction)?;
    }
    Ok(())
}

fn put_blocks(out: &mut String, blocks: &[Behaviour]) -> Result<(), Memory>
    ensures { OnOk result (string_bytes out.new ≡ string_bytes out.old ++ flat_map (λ b. block_line (view_behaviour b)) blocks.now) }
{
    for block in blocks {
        put_named(out, "block", block.name.as_str())?;
    }
    Ok(())
}

/// Appends the listing of an extension.
fn put_extension(out: &mut String, extension: &Extension) -> Result<(), Memory>
    ensures { OnOk result (string_bytes out.new ≡ string_bytes out.old ++ listing_text (view_extension extension.now)) }
{
    put_named(out, "set", extension.name.as_str())?;
    put_registers(out, extension.registers.as_slice())?;
    put_tables(out, extension.tables.as_slice())?;
    put_instructions(out, extension.instructions.as_slice())?;
    put_blocks(out, extension.blocks.as_slice())
}

/// The listing of an extension: `set NAME`, then `register cK NAME TYPE`, `table NAME TYPE LENGTH`, `instruction NAME mask M
/// match M` with its `piece FIELD HI LO at BIT`, and `block NAME`, each on a line of its own and in the order of the source.
pub fn listing(alloc: Global, extension: &Extension) -> Result<String, Memory>
    ensures { IfOk result (λ text. string_bytes text ≡ listing_text (view_extension extension.now)) }
{
    let mut out = String::new(alloc);
    put_extension(&mut out, extension)?;
    Ok(out)
}
