ghost use Rattle.std.specs.Prelude.{◌≡◌, ◌<◌};
ghost use Rattle.rv_asm.specs.Forms.{row_of, form_of};

/// How the operands behind a name are written.
#[derive(Clone, Copy, Debug, PartialEq, Eq)]
pub enum Form {
    /// `rd, rs1, rs2`.
    Registers,
    /// `rd, rs1, n`.
    Number,
    /// `rd, n(rs1)`.
    Load,
    /// `rs2, n(rs1)`.
    Store,
    /// `rs1, rs2, target`.
    Branch,
    /// `rd, n`.
    Upper,
    /// `rd, target`.
    Jump,
    /// `rd, n(rs1)` or `rd, rs1, n`.
    JumpRegister,
    /// No operand; all of memory and input and output are ordered.
    Fence,
    /// No operand.
    Bare,
    /// `rd, rs`, by an addition of 0.
    Move,
    /// `target`, without a link.
    Goto,
    /// No operand: a jump to x1 without a link.
    Return,
    /// `n`, the word itself.
    Word,
}

/// The form of each mnemonic.
static FORMS: [Form; 45] = [
    Form::Upper, // lui
    Form::Upper, // auipc
    Form::Jump, // jal
    Form::JumpRegister, // jalr
    Form::Branch, // beq
    Form::Branch, // bne
    Form::Branch, // blt
    Form::Branch, // bge
    Form::Branch, // bltu
    Form::Branch, // bgeu
    Form::Load, // lb
    Form::Load, // lh
    Form::Load, // lw
    Form::Load, // lbu
    Form::Load, // lhu
    Form::Store, // sb
    Form::Store, // sh
    Form::Store, // sw
    Form::Number, // addi
    Form::Number, // slti
    Form::Number, // sltiu
    Form::Number, // xori
    Form::Number, // ori
    Form::Number, // andi
    Form::Number, // slli
    Form::Number, // srli
    Form::Number, // srai
    Form::Registers, // add
    Form::Registers, // sub
    Form::Registers, // sll
    Form::Registers, // slt
    Form::Registers, // sltu
    Form::Registers, // xor
    Form::Registers, // srl
    Form::Registers, // sra
    Form::Registers, // or
    Form::Registers, // and
    Form::Fence, // fence
    Form::Bare, // ecall
    Form::Bare, // ebreak
    Form::Bare, // nop
    Form::Move, // mv
    Form::Goto, // j
    Form::Return, // ret
    Form::Word, // .word
];

/// The form of the mnemonic at a place.
pub fn form_of(place: u8) -> Form
    requires { place < 45 }
    ensures { result ≡ form_of place }
{
    FORMS[place as usize]
}

/// The row of the base table that the mnemonic at a place is made of.
pub fn row_of(place: u8) -> u8
    ensures value { result ≡ row_of place }
    ensures below { result < 40 }
{
    match place {
        0..=39 => place,
        42 => 2,
        43 => 3,
        _ => 18,
    }
}
