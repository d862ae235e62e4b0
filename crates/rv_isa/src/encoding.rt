ghost use Rattle.std.specs.Prelude.{◌≡◌, ◌<◌, Some};
ghost use Rattle.rv_isa.specs.Table.{Matches};
ghost use Rattle.rv_isa.specs.Fields.{IsInRange};
ghost use Rattle.rv_isa.specs.Decoded.{decoded};
ghost use Rattle.rv_isa.specs.Encoded.{encoded, placed};

use crate::base::Base;
use crate::table::{Format, base_format, base_pattern};
use crate::word::bits;

/// The fields of this format, each in its place in the word. The places are apart, so the sum joins them.
fn joined(format: Format, b: Base) -> u32
    requires rd { b.rd < 32 }
    requires rs1 { b.rs1 < 32 }
    requires rs2 { b.rs2 < 32 }
    ensures { result ≡ placed format b }
{
    let rd = u32::from(b.rd) << 7;
    let rs1 = u32::from(b.rs1) << 15;
    let rs2 = u32::from(b.rs2) << 20;
    let imm = b.imm.cast_unsigned();
    match format {
        Format::Register => rs2 + rs1 + rd,
        Format::Immediate => (bits(imm, 11, 0) << 20) + rs1 + rd,
        Format::Shift => (bits(imm, 4, 0) << 20) + rs1 + rd,
        Format::Store => (bits(imm, 11, 5) << 25) + rs2 + rs1 + (bits(imm, 4, 0) << 7),
        Format::Branch => {
            (bits(imm, 12, 12) << 31)
                + (bits(imm, 10, 5) << 25)
                + rs2
                + rs1
                + (bits(imm, 4, 1) << 8)
                + (bits(imm, 11, 11) << 7)
        }
        Format::Upper => (bits(imm, 31, 12) << 12) + rd,
        Format::Jump => {
            (bits(imm, 20, 20) << 31)
                + (bits(imm, 10, 1) << 21)
                + (bits(imm, 11, 11) << 20)
                + (bits(imm, 19, 12) << 12)
                + rd
        }
        Format::Fixed => 0,
    }
}

/// The word of an instruction whose fields are in the ranges of its row's format: the one word that decodes to it.
pub fn encode(b: Base) -> u32
    requires { IsInRange b }
    ensures value { result ≡ encoded b }
    ensures row { Matches result b.row }
    ensures decodes { decoded result ≡ Some b }
{
    base_pattern(b.row).1 + joined(base_format(b.row), b)
}
