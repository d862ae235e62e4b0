use ix_bits::{List, Name};

/// A sign between two operands.
#[derive(Clone, Copy, Debug)]
pub enum Sign {
    Plus,
    Minus,
    Times,
    And,
    Or,
    Xor,
    Equal,
    Less,
}

/// The right side of an assignment as it is written, its numbers as their words.
#[derive(Debug, Drop)]
pub enum RightSide {
    /// A number with its width, as `8'h2a`.
    Literal(List<u8>),
    Copy(Name),
    /// `a + b` and the like.
    Both(Sign, Name, Name),
    /// `~a`
    Turned(Name),
    /// `$signed(a) < $signed(b)`
    Signed(Name, Name),
    /// `{a, b}`
    Joined(Name, Name),
    /// `a[h:l]`
    Range {
        source: Name,
        high: List<u8>,
        low: List<u8>,
    },
    /// `c ? a : b`
    Choice(Name, Name, Name),
}
