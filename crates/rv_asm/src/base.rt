ghost use Rattle.std.specs.Prelude.{◌≡◌, ◌<◌, ◌≤◌, ◌^◌, ◌*◌, true};
ghost use Rattle.rv_isa.specs.Table.{format_of};
ghost use Rattle.rv_isa.specs.Fields.{upper_of};
ghost use Rattle.rv_asm.specs.Forms.{is_signed, is_unsigned, is_even, is_in_reach as specified_is_in_reach, whole_of, base_of as specified_base_of, base_verdict, word_verdict};

use rv_asm_text::{Number, Verdict};
use rv_isa::{Base, Format, base_format, encode};

// Whether a number is from -2^k to 2^k - 1.
fn is_signed(k: u8, n: Number) -> bool
    requires { k ≤ 20 }
    ensures { result ≡ is_signed k n }
{
    if n.is_negative {
        n.size <= 1 << k
    } else {
        n.size < 1 << k
    }
}

// Whether a number is from 0 to 2^k - 1.
fn is_unsigned(k: u8, n: Number) -> bool
    requires { k ≤ 20 }
    ensures { result ≡ is_unsigned k n }
{
    if n.is_negative {
        false
    } else {
        n.size < 1 << k
    }
}

fn is_even(n: Number) -> bool
    ensures { result ≡ is_even n }
{
    n.size % 2 == 0
}

// Whether a line may give the number to a row of this format.
fn is_in_reach(format: Format, n: Number) -> bool
    ensures { result ≡ specified_is_in_reach format n }
{
    match format {
        Format::Register | Format::Fixed => true,
        Format::Immediate | Format::Store => is_signed(11, n),
        Format::Shift => is_unsigned(5, n),
        Format::Branch => { if is_even(n) { is_signed(12, n) } else { false } }
        Format::Upper => is_unsigned(20, n),
        Format::Jump => { if is_even(n) { is_signed(20, n) } else { false } }
    }
}

fn whole(n: Number) -> i32
    requires { n.size ≤ 2 ^ 20 }
    ensures { result ≡ whole_of n }
{
    if n.is_negative {
        0 - (n.size as i32)
    } else {
        n.size as i32
    }
}

fn upper(n: Number) -> i32
    requires { n.size < 2 ^ 20 }
    ensures { result ≡ upper_of (n.size * 2 ^ 12) }
{
    ((n.size as u32) << 12).cast_signed()
}

// The instruction of a row of this format.
fn base_of(format: Format, row: u8, rd: u8, rs1: u8, rs2: u8, n: Number) -> Base
    requires { specified_is_in_reach format n ≡ true }
    ensures { result ≡ specified_base_of format row rd rs1 rs2 n }
{
    let (rd, rs1, rs2, imm) = match format {
        Format::Register => (rd, rs1, rs2, 0),
        Format::Immediate | Format::Shift => (rd, rs1, 0, whole(n)),
        Format::Store | Format::Branch => (0, rs1, rs2, whole(n)),
        Format::Upper => (rd, 0, 0, upper(n)),
        Format::Jump => (rd, 0, 0, whole(n)),
        Format::Fixed => (0, 0, 0, 0),
    };
    Base {
        row,
        rd,
        rs1,
        rs2,
        imm,
    }
}

/// The word of the instruction of a row with these registers and this number, or Reach.
#[tactic(auto, unfolding(crate::specs::Forms::base_verdict))]
pub(crate) fn row_word(row: u8, rd: u8, rs1: u8, rs2: u8, n: Number) -> Verdict
    requires row { row < 40 }
    requires rd { rd < 32 }
    requires rs1 { rs1 < 32 }
    requires rs2 { rs2 < 32 }
    ensures { result ≡ base_verdict row rd rs1 rs2 n }
{
    let format = base_format(row);
    if is_in_reach(format, n) {
        Verdict::Word(encode(base_of(format, row, rd, rs1, rs2, n)))
    } else {
        Verdict::Reach
    }
}

/// A word from -2^31 to 2^32 - 1, taken modulo 2^32, or Reach.
#[tactic(auto, unfolding(crate::specs::Forms::word_verdict))]
pub(crate) fn plain_word(n: Number) -> Verdict
    ensures { result ≡ word_verdict n }
{
    if n.is_negative {
        if n.size <= 0x8000_0000 {
            Verdict::Word(((0x1_0000_0000 - n.size) % 0x1_0000_0000) as u32)
        } else {
            Verdict::Reach
        }
    } else if n.size < 0x1_0000_0000 {
        Verdict::Word(n.size as u32)
    } else {
        Verdict::Reach
    }
}
