/// An operator on two numbers (CoreDSL 2, expressions). `Land` and `Lor` are `&&` and `||`, `Concat` is `::`.
#[derive(Clone, Copy, Debug, PartialEq, Eq)]
pub enum BinOp {
    Add,
    Sub,
    Mul,
    And,
    Or,
    Xor,
    Shl,
    Shr,
    Eq,
    Ne,
    Lt,
    Le,
    Gt,
    Ge,
    Land,
    Lor,
    Concat,
}

/// An operator on one number: `-`, `~` and `!`.
#[derive(Clone, Copy, Debug, PartialEq, Eq)]
pub enum UnOp {
    Neg,
    Not,
    Lnot,
}
