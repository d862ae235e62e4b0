ghost use Rattle.std.specs.Prelude.{◌≡◌, ◌<◌};
ghost use Rattle.rv_base.specs.Operations.{operation_at, bytes_in};

use rv_isa::rows;

/// An operation on two words.
#[derive(Clone, Copy, Debug, PartialEq, Eq)]
pub enum Alu {
    Add,
    Sub,
    ShiftLeft,
    LessSigned,
    Less,
    Xor,
    ShiftRight,
    ShiftRightSigned,
    Or,
    And,
}

/// What a branch asks of two words.
#[derive(Clone, Copy, Debug, PartialEq, Eq)]
pub enum Test {
    Equal,
    NotEqual,
    LessSigned,
    AtLeastSigned,
    Less,
    AtLeast,
}

/// How much a load or a store moves: 1, 2 or 4 bytes.
#[derive(Clone, Copy, Debug, PartialEq, Eq)]
pub enum Size {
    Byte,
    Half,
    Word,
}

/// What the instructions of a row of the base table do.
#[derive(Clone, Copy, Debug, PartialEq, Eq)]
pub enum Operation {
    /// LUI
    Upper,
    /// AUIPC
    UpperFromPc,
    /// JAL
    Jump,
    /// JALR
    JumpRegister,
    Branch(Test),
    /// A load that extends the sign of what it reads.
    Load(Size),
    /// A load that fills up with zeros.
    LoadUnsigned(Size),
    Store(Size),
    /// An operation on rs1 and the immediate.
    Immediate(Alu),
    /// An operation on rs1 and rs2.
    Register(Alu),
    Fence,
    /// ECALL
    Call,
    /// EBREAK
    Break,
}

/// The count of bytes.
pub fn bytes_of(size: Size) -> u8
    ensures { result ≡ bytes_in size }
{
    match size {
        Size::Byte => 1,
        Size::Half => 2,
        Size::Word => 4,
    }
}

/// What the instructions of a row do; there is none past 39.
pub fn operation_of(row: u8) -> Operation
    ensures { result ≡ operation_at row }
{
    if row < 40 {
        operation_within(row)
    } else {
        Operation::Break
    }
}

// What the instructions of a row do, which is below 40.
fn operation_within(row: u8) -> Operation
    requires { row < 40 }
    ensures { result ≡ operation_at row }
{
    match row {
        rows::LUI => Operation::Upper,
        rows::AUIPC => Operation::UpperFromPc,
        rows::JAL => Operation::Jump,
        rows::JALR => Operation::JumpRegister,
        rows::BEQ => Operation::Branch(Test::Equal),
        rows::BNE => Operation::Branch(Test::NotEqual),
        rows::BLT => Operation::Branch(Test::LessSigned),
        rows::BGE => Operation::Branch(Test::AtLeastSigned),
        rows::BLTU => Operation::Branch(Test::Less),
        rows::BGEU => Operation::Branch(Test::AtLeast),
        rows::LB => Operation::Load(Size::Byte),
        rows::LH => Operation::Load(Size::Half),
        rows::LW => Operation::Load(Size::Word),
        rows::LBU => Operation::LoadUnsigned(Size::Byte),
        rows::LHU => Operation::LoadUnsigned(Size::Half),
        rows::SB => Operation::Store(Size::Byte),
        rows::SH => Operation::Store(Size::Half),
        rows::SW => Operation::Store(Size::Word),
        rows::ADDI => Operation::Immediate(Alu::Add),
        rows::SLTI => Operation::Immediate(Alu::LessSigned),
        rows::SLTIU => Operation::Immediate(Alu::Less),
        rows::XORI => Operation::Immediate(Alu::Xor),
        rows::ORI => Operation::Immediate(Alu::Or),
        rows::ANDI => Operation::Immediate(Alu::And),
        rows::SLLI => Operation::Immediate(Alu::ShiftLeft),
        rows::SRLI => Operation::Immediate(Alu::ShiftRight),
        rows::SRAI => Operation::Immediate(Alu::ShiftRightSigned),
        rows::ADD => Operation::Register(Alu::Add),
        rows::SUB => Operation::Register(Alu::Sub),
        rows::SLL => Operation::Register(Alu::ShiftLeft),
        rows::SLT => Operation::Register(Alu::LessSigned),
        rows::SLTU => Operation::Register(Alu::Less),
        rows::XOR => Operation::Register(Alu::Xor),
        rows::SRL => Operation::Register(Alu::ShiftRight),
        rows::SRA => Operation::Register(Alu::ShiftRightSigned),
        rows::OR => Operation::Register(Alu::Or),
        rows::AND => Operation::Register(Alu::And),
        rows::FENCE => Operation::Fence,
        rows::ECALL => Operation::Call,
        _ => Operation::Break,
    }
}
