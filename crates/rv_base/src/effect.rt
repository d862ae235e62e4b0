ghost use Rattle.std.specs.Prelude.{◌≡◌, ◌*◌, ◌%◌, ◌^◌, true};
ghost use Rattle.ix_bits.specs.Types.{number_of};
ghost use Rattle.ix_bits.specs.Operators.{pattern_of};
ghost use Rattle.rv_base.specs.Operations.{bytes_in};
ghost use Rattle.rv_base.specs.Effects.{immediate as specified_immediate, result_at, target_at, address_at, load_at, loaded_at, store_at};

use crate::alu::{compute, holds};
use crate::operation::{Operation, Size, operation_of};
use rv_isa::Base;

// The immediate as a word.
fn immediate(b: Base) -> u32
    ensures { result ≡ specified_immediate b }
{
    b.imm.cast_unsigned()
}

/// What is written to rd by an instruction at `pc` with these values of rs1 and rs2; none by what writes nothing, and by a load.
pub fn result_of(b: Base, pc: u32, x: u32, y: u32) -> Option<u32>
    ensures { result ≡ result_at b pc x y }
{
    match operation_of(b.row) {
        Operation::Upper => Some(immediate(b)),
        Operation::UpperFromPc => Some(pc.wrapping_add(immediate(b))),
        Operation::Jump | Operation::JumpRegister => Some(pc.wrapping_add(4)),
        Operation::Immediate(op) => Some(compute(op, x, immediate(b))),
        Operation::Register(op) => Some(compute(op, x, y)),
        _ => None,
    }
}

/// The address that a jump or a taken branch goes to.
pub fn target_of(b: Base, pc: u32, x: u32, y: u32) -> Option<u32>
    ensures { result ≡ target_at b pc x y }
{
    match operation_of(b.row) {
        Operation::Jump => Some(pc.wrapping_add(immediate(b))),
        Operation::JumpRegister => {
            let to = x.wrapping_add(immediate(b));
            Some(to - to % 2)
        }
        Operation::Branch(test) if holds(test, x, y) => Some(pc.wrapping_add(immediate(b))),
        _ => None,
    }
}

/// The address that a load or a store uses, with this value of rs1.
pub fn address_of(b: Base, x: u32) -> u32
    ensures { result ≡ address_at b x }
{
    x.wrapping_add(immediate(b))
}

/// How much an instruction loads.
pub fn load_of(b: Base) -> Option<Size>
    ensures { result ≡ load_at b }
{
    match operation_of(b.row) {
        Operation::Load(size) | Operation::LoadUnsigned(size) => Some(size),
        _ => None,
    }
}

/// How much an instruction stores.
pub fn store_of(b: Base) -> Option<Size>
    ensures { result ≡ store_at b }
{
    match operation_of(b.row) {
        Operation::Store(size) => Some(size),
        _ => None,
    }
}

// The low byte, with its sign.
fn signed_byte(raw: u32) -> u32
    ensures { result ≡ pattern_of 32 (number_of true 8 (raw % 2 ^ 8)) }
{
    let byte = (raw % 0x100) as u8;
    i32::from(byte.cast_signed()).cast_unsigned()
}

// The low half, with its sign.
fn signed_half(raw: u32) -> u32
    ensures { result ≡ pattern_of 32 (number_of true 16 (raw % 2 ^ 16)) }
{
    let half = (raw % 0x1_0000) as u16;
    i32::from(half.cast_signed()).cast_unsigned()
}

// The low bytes, with their sign.
fn signed_word(size: Size, raw: u32) -> u32
    ensures { result ≡ pattern_of 32 (number_of true (8 * bytes_in size) (raw % 2 ^ (8 * bytes_in size))) }
{
    match size {
        Size::Byte => signed_byte(raw),
        Size::Half => signed_half(raw),
        Size::Word => raw,
    }
}

// The low bytes.
fn plain_word(size: Size, raw: u32) -> u32
    ensures { result ≡ raw % 2 ^ (8 * bytes_in size) }
{
    match size {
        Size::Byte => raw % 0x100,
        Size::Half => raw % 0x1_0000,
        Size::Word => raw,
    }
}

/// The word that a load makes of the bytes that it read, the lowest first.
pub fn loaded_word(b: Base, raw: u32) -> u32
    ensures { result ≡ loaded_at b raw }
{
    match operation_of(b.row) {
        Operation::Load(size) => signed_word(size, raw),
        Operation::LoadUnsigned(size) => plain_word(size, raw),
        _ => raw,
    }
}
