use ix_bits::{Bits, List, Name};

/// A module of assignments and registers with one clock.
#[derive(Debug, Drop)]
pub struct Net {
    pub name: Name,
    pub inputs: List<Port>,
    pub cells: List<Cell>,
    pub banks: List<Bank>,
    /// Each is the target of a cell.
    pub outputs: List<Port>,
}

/// An input or an output.
#[derive(Debug, Drop)]
pub struct Port {
    pub name: Name,
    /// In bits, 1 to 128.
    pub width: u8,
}

/// An assignment of a right side to a name, `assign target = form;`.
#[derive(Debug, Drop)]
pub struct Cell {
    pub target: Name,
    /// In bits, 1 to 128.
    pub width: u8,
    pub form: Form,
}

/// A register, which takes the value of `source` at the edge of the clock where `enable` is 1.
#[derive(Debug, Drop)]
pub struct Bank {
    pub target: Name,
    /// In bits, 1 to 128.
    pub width: u8,
    /// A name of width 1.
    pub enable: Name,
    pub source: Name,
}

/// The right side of an assignment. Sums, differences and products are modulo `2^width`.
#[derive(Debug, Drop)]
pub enum Form {
    /// A number of the cell's width.
    Hex(Bits),
    Copy(Name),
    Add(Name, Name),
    Sub(Name, Name),
    Mul(Name, Name),
    And(Name, Name),
    Or(Name, Name),
    Xor(Name, Name),
    /// All bits turned.
    Not(Name),
    Eq(Name, Name),
    Lt(Name, Name),
    /// The operands compared as two's complement numbers.
    LtSigned(Name, Name),
    /// The first operand on top of the second.
    Join(Name, Name),
    /// The bits of `source` from `hi` down to `lo`.
    Range { source: Name, hi: u8, lo: u8 },
    /// The second operand where the first is 1, else the third.
    Choose(Name, Name, Name),
}
