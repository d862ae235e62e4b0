use ix_bits::Name;

/// Why a text is refused. What comes first in this list is told first, but that `Twice` stands before `Width`.
#[derive(Debug, Drop)]
pub enum VErr {
    /// The bytes before this one begin a text of modules, and with the word that begins there they begin none; where it is the count of bytes, the
    /// text ends too early.
    At { byte: u32 },
    /// The text is of modules in which no name stands twice, and its first `assign` or `if` whose widths disagree stands on this line, from 1.
    Width { line: u32 },
    /// All widths agree, and this is the target of the first `assign` that depends on itself without a register between.
    Loop { name: Name },
    /// The text is of modules, and this is the first name that is declared or driven a second time, or that a second module has.
    Twice { name: Name },
    Memory,
}
