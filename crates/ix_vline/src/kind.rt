/// What a line may be. An assignment is of as many kinds as there are right sides.
#[derive(Clone, Copy, Debug)]
pub enum Kind {
    /// `module name(clk`
    Head,
    /// `, name`
    Port,
    /// `); input clk;`
    Heading,
    Input,
    Output,
    Wire,
    Register,
    Assign(Right),
    Always,
    /// `if (enable) target <= source;`
    Update,
    /// `end`
    Done,
    /// `endmodule`
    Finish,
}

/// What the right side of an assignment may be.
#[derive(Clone, Copy, Debug)]
pub enum Right {
    Literal,
    Copy,
    /// A sign between two operands.
    Both,
    /// `~a`
    Turned,
    /// `$signed(a) < $signed(b)`
    Signed,
    /// `{a, b}`
    Joined,
    Range,
    Choice,
}

/// A word that may stand at some place of a line.
#[derive(Clone, Copy, Debug)]
pub enum Slot {
    /// The first word of a line that may stand there.
    First(Kind),
    /// A word of one byte.
    Byte(u8),
    Clk,
    Input,
    Posedge,
    Begin,
    /// `<=`
    Arrow,
    /// `$signed`
    Signed,
    /// A name that is declared.
    Fresh,
    /// The port that is declared next.
    Next,
    /// What an `assign` may drive.
    Target,
    Operand,
    Register,
    /// The number of the highest bit of a width.
    Highest,
    Literal,
    Number,
    /// A sign between two operands.
    Operator,
}
