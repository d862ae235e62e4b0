ghost use Rattle.std.specs.Prelude.{◌≡◌, ◌<◌, IfSome};
ghost use Rattle.rv_isa.specs.Table.{pattern_of, format_of, row_of};

/// Which fields an instruction has, and in which bits of the word
/// (RISC-V Unprivileged ISA, RV32I, Base Instruction Formats and Immediate Encoding Variants).
#[derive(Clone, Copy, Debug, PartialEq, Eq)]
pub enum Format {
    /// R: rd, rs1 and rs2.
    Register,
    /// I: rd, rs1 and a signed immediate of 12 bits. FENCE has this format too, so that no bit of it is lost.
    Immediate,
    /// I with a shift amount, 0 to 31, in the place of rs2: rd, rs1 and the amount as immediate.
    Shift,
    /// S: rs1, rs2 and a signed immediate of 12 bits.
    Store,
    /// B: rs1, rs2 and a signed, even immediate of 13 bits.
    Branch,
    /// U: rd and a signed immediate of 32 bits, a multiple of 4096.
    Upper,
    /// J: rd and a signed, even immediate of 21 bits.
    Jump,
    /// No field: the whole word is fixed, as for ECALL and EBREAK.
    Fixed,
}

/// Mask and match of each row.
static PATTERNS: [(u32, u32); 40] = [
    (0x0000007f, 0x00000037), // LUI
    (0x0000007f, 0x00000017), // AUIPC
    (0x0000007f, 0x0000006f), // JAL
    (0x0000707f, 0x00000067), // JALR
    (0x0000707f, 0x00000063), // BEQ
    (0x0000707f, 0x00001063), // BNE
    (0x0000707f, 0x00004063), // BLT
    (0x0000707f, 0x00005063), // BGE
    (0x0000707f, 0x00006063), // BLTU
    (0x0000707f, 0x00007063), // BGEU
    (0x0000707f, 0x00000003), // LB
    (0x0000707f, 0x00001003), // LH
    (0x0000707f, 0x00002003), // LW
    (0x0000707f, 0x00004003), // LBU
    (0x0000707f, 0x00005003), // LHU
    (0x0000707f, 0x00000023), // SB
    (0x0000707f, 0x00001023), // SH
    (0x0000707f, 0x00002023), // SW
    (0x0000707f, 0x00000013), // ADDI
    (0x0000707f, 0x00002013), // SLTI
    (0x0000707f, 0x00003013), // SLTIU
    (0x0000707f, 0x00004013), // XORI
    (0x0000707f, 0x00006013), // ORI
    (0x0000707f, 0x00007013), // ANDI
    (0xfe00707f, 0x00001013), // SLLI
    (0xfe00707f, 0x00005013), // SRLI
    (0xfe00707f, 0x40005013), // SRAI
    (0xfe00707f, 0x00000033), // ADD
    (0xfe00707f, 0x40000033), // SUB
    (0xfe00707f, 0x00001033), // SLL
    (0xfe00707f, 0x00002033), // SLT
    (0xfe00707f, 0x00003033), // SLTU
    (0xfe00707f, 0x00004033), // XOR
    (0xfe00707f, 0x00005033), // SRL
    (0xfe00707f, 0x40005033), // SRA
    (0xfe00707f, 0x00006033), // OR
    (0xfe00707f, 0x00007033), // AND
    (0x0000707f, 0x0000000f), // FENCE
    (0xffffffff, 0x00000073), // ECALL
    (0xffffffff, 0x00100073), // EBREAK
];

/// Format of each row.
static FORMATS: [Format; 40] = [
    Format::Upper, // LUI
    Format::Upper, // AUIPC
    Format::Jump, // JAL
    Format::Immediate, // JALR
    Format::Branch, // BEQ
    Format::Branch, // BNE
    Format::Branch, // BLT
    Format::Branch, // BGE
    Format::Branch, // BLTU
    Format::Branch, // BGEU
    Format::Immediate, // LB
    Format::Immediate, // LH
    Format::Immediate, // LW
    Format::Immediate, // LBU
    Format::Immediate, // LHU
    Format::Store, // SB
    Format::Store, // SH
    Format::Store, // SW
    Format::Immediate, // ADDI
    Format::Immediate, // SLTI
    Format::Immediate, // SLTIU
    Format::Immediate, // XORI
    Format::Immediate, // ORI
    Format::Immediate, // ANDI
    Format::Shift, // SLLI
    Format::Shift, // SRLI
    Format::Shift, // SRAI
    Format::Register, // ADD
    Format::Register, // SUB
    Format::Register, // SLL
    Format::Register, // SLT
    Format::Register, // SLTU
    Format::Register, // XOR
    Format::Register, // SRL
    Format::Register, // SRA
    Format::Register, // OR
    Format::Register, // AND
    Format::Immediate, // FENCE
    Format::Fixed, // ECALL
    Format::Fixed, // EBREAK
];

/// The mask and the match of a row: a word is of this row exactly where its bits under the mask are the match.
pub fn base_pattern(row: u8) -> (u32, u32)
    requires { row < 40 }
    ensures { result ≡ pattern_of row }
{
    PATTERNS[row as usize]
}

/// The format of a row.
pub fn base_format(row: u8) -> Format
    requires { row < 40 }
    ensures { result ≡ format_of row }
{
    FORMATS[row as usize]
}

/// The row that a word matches, if any. No word matches two.
#[tactic(auto, unfolding(crate::specs::Table::row_of, ix_bits::specs::BaseTable::base_patterns))]
pub(crate) fn matching_row(word: u32) -> Option<usize>
    ensures value { result ≡ row_of word }
    ensures below { IfSome result (λ row. row < 40) }
{
    PATTERNS
        .iter()
        .position(|pattern| word & pattern.0 == pattern.1)
}
