ghost use Rattle.std.specs.Prelude.{ℕ, ◌≡◌, ◌^◌, ◌<◌, ◌≤◌, ◌↔◌, IsNone, IfSome};
ghost use Rattle.rv_isa.specs.Table.{Matches};
ghost use Rattle.rv_isa.specs.Fields.{signed, immediate_of, store_offset_of, branch_offset_of, upper_of, jump_offset_of, fields_of, IsInRange};
ghost use Rattle.rv_isa.specs.Decoded.{decoded};
ghost use Rattle.rv_isa.specs.Encoded.{encoded};

use crate::base::Base;
use crate::table::{Format, base_format, matching_row};
use crate::word::bits;

/// The number that the low `width` bits stand for in two's complement.
fn sign_extended(bits: u32, width: u32) -> i32
    requires some_width { 0 < width }
    requires most_width { width ≤ 30 }
    requires fits { bits < 2 ^ width }
    ensures { result ≡ signed width bits }
{
    if bits >> (width - 1) == 0 {
        bits as i32
    } else {
        bits as i32 - (1 << width)
    }
}

/// The immediate of format I.
fn immediate(word: u32) -> i32
    ensures { result ≡ immediate_of word }
{
    sign_extended(bits(word, 31, 20), 12)
}

/// The immediate of format S.
fn store_offset(word: u32) -> i32
    ensures { result ≡ store_offset_of word }
{
    sign_extended(bits(word, 31, 25) << 5 | bits(word, 11, 7), 12)
}

/// The immediate of format B.
fn branch_offset(word: u32) -> i32
    ensures { result ≡ branch_offset_of word }
{
    sign_extended(
        bits(word, 31, 31) << 12
            | bits(word, 7, 7) << 11
            | bits(word, 30, 25) << 5
            | bits(word, 11, 8) << 1,
        13,
    )
}

/// The immediate of format U.
fn upper(word: u32) -> i32
    ensures { result ≡ upper_of word }
{
    (word & 0xffff_f000).cast_signed()
}

/// The immediate of format J.
fn jump_offset(word: u32) -> i32
    ensures { result ≡ jump_offset_of word }
{
    sign_extended(
        bits(word, 31, 31) << 20
            | bits(word, 19, 12) << 12
            | bits(word, 20, 20) << 11
            | bits(word, 30, 21) << 1,
        21,
    )
}

/// The fields of a word of this row, which has this format.
fn fields(format: Format, row: u8, word: u32) -> Base
    ensures { result ≡ fields_of format row word }
{
    let rd = bits(word, 11, 7) as u8;
    let rs1 = bits(word, 19, 15) as u8;
    let rs2 = bits(word, 24, 20) as u8;
    let (rd, rs1, rs2, imm) = match format {
        Format::Register => (rd, rs1, rs2, 0),
        Format::Immediate => (rd, rs1, 0, immediate(word)),
        Format::Shift => (rd, rs1, 0, i32::from(rs2)),
        Format::Store => (0, rs1, rs2, store_offset(word)),
        Format::Branch => (0, rs1, rs2, branch_offset(word)),
        Format::Upper => (rd, 0, 0, upper(word)),
        Format::Jump => (rd, 0, 0, jump_offset(word)),
        Format::Fixed => (0, 0, 0, 0),
    };
    Base {
        row,
        rd,
        rs1,
        rs2,
        imm,
    }
}

/// The instruction of a word, or `None` exactly where the word matches no row of the base table.
pub fn decode(word: u32) -> Option<Base>
    ensures value { result ≡ decoded word }
    ensures illegal { IsNone result ↔ ((row : ℕ) → row < 40 → ¬ Matches word row) }
    ensures row { IfSome result (λ b. Matches word b.row) }
    ensures in_range { IfSome result IsInRange }
    ensures word { IfSome result (λ b. encoded b ≡ word) }
{
    let row = matching_row(word)? as u8;
    Some(fields(base_format(row), row, word))
}
