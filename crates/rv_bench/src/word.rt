ghost use Rattle.std.specs.Prelude.{◌≡◌, ◌+◌, ◌*◌, ◌<◌, ◌^◌, Some, map, slice_get, pos};
ghost use Rattle.rv_isa.specs.Fields.{signed};
ghost use Rattle.ix_extension.specs.Extensions.{view_instruction};
ghost use Rattle.rv_bench.specs.DrawnImage.{bases, extension_word as specified_extension_word, drawn_word as specified_drawn_word};

use crate::draws::Draws;
use ix_tree::Instruction;
use rv_isa::{Base, encode, rows};

/// The count of words of the base set that a draw chooses from.
const BASES: usize = 8;

/// The register that has the address of the memory.
const MEMORY: u8 = 31;

/// The number that 12 bits stand for in two's complement.
fn signed_twelve(bits: u32) -> i32
    requires { bits < 4096 }
    ensures { result ≡ signed 12 bits }
{
    if bits < 2048 {
        bits as i32
    } else {
        bits as i32 - 4096
    }
}

/// An instruction with these fields that reads no second register.
fn with_number(row: u8, rd: u8, rs1: u8, imm: i32) -> Base
    ensures { result ≡ record { row = row; rd = rd; rs1 = rs1; rs2 = 0; imm = imm } }
{
    Base {
        row,
        rd,
        rs1,
        rs2: 0,
        imm,
    }
}

/// The instruction of the base set that stands in this place among those that a draw chooses from.
fn base(place: usize, draws: Draws) -> Base
    requires { place < 8 }
    ensures { slice_get (bases draws) place ≡ Some result }
{
    let rd = (draws.destination % 30 + 1) as u8;
    let rs1 = (draws.first % 32) as u8;
    let rs2 = (draws.second % 32) as u8;
    let offset = (4 * (draws.value % 512)) as i32;
    let of_registers = Base {
        row: rows::ADD,
        rd,
        rs1,
        rs2,
        imm: 0,
    };
    match place {
        0 => with_number(rows::ADDI, rd, rs1, signed_twelve(draws.value % 4096)),
        1 => of_registers,
        2 => Base {
            row: rows::SUB,
            ..of_registers
        },
        3 => Base {
            row: rows::XOR,
            ..of_registers
        },
        4 => with_number(
            rows::LUI,
            rd,
            0,
            (draws.value % (1 << 20) << 12).cast_signed(),
        ),
        5 => with_number(rows::SLLI, rd, rs1, (draws.value % 32) as i32),
        6 => Base {
            row: rows::SW,
            rd: 0,
            rs1: MEMORY,
            rs2,
            imm: offset,
        },
        _ => with_number(rows::LW, rd, MEMORY, offset),
    }
}

/// A word of an instruction of an extension, with drawn bits where its encoding leaves them open.
fn extension_word(instruction: &Instruction, draws: Draws) -> u32
    requires { draws.value < 2 ^ 24 }
    ensures { result ≡ specified_extension_word draws (view_instruction instruction.now) }
{
    let open = (draws.second % 256) * (1 << 24) + draws.value;
    instruction.matches | (open & !instruction.mask)
}

/// The word that the draws choose, among some of the base set and one for each of these instructions.
pub(crate) fn drawn_word(instructions: &[Instruction], draws: Draws) -> u32
    requires { draws.value < 2 ^ 24 }
    ensures { result ≡ specified_drawn_word (map view_instruction instructions.now) draws }
{
    let place = draws.choice as usize % (BASES + instructions.len());
    if place < BASES {
        encode(base(place, draws))
    } else {
        extension_word(&instructions[place - BASES], draws)
    }
}
