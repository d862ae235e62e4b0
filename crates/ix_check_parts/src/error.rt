use ix_tree::Span;

/// Why a tree is refused: the first rule that is broken, in the order of the source, and where.
#[derive(Clone, Copy, Debug, PartialEq, Eq)]
pub enum CheckErr {
    /// A name without declaration, or in a role that it does not have.
    Unknown { span: Span },
    /// A declaration of a visible name, or a second section of one kind.
    Twice { span: Span },
    /// A value whose type does not go into the type that it is assigned to.
    Narrow { span: Span },
    /// A type wider than 128 bits.
    TooWide { span: Span },
    /// Bits of a signed and an unsigned number together, or a shift by a signed one.
    Mixed { span: Span },
    /// A type of width 0, or bits outside of a number or of the word.
    Range { span: Span },
    /// A use of X or MEM in a form that it does not have.
    Index { span: Span },
    /// A read of X, PC or a custom register behind a write of it.
    ReadAfterWrite { span: Span },
    /// A second write of a target on a path.
    DoubleWrite { span: Span },
    /// A second occurrence of MEM in a behaviour.
    SecondAccess { span: Span },
    /// MEM, PC or `spawn` in a `spawn`, or a `spawn` that may not stand there.
    InSpawn { span: Span },
    /// A table's index that may be past its end, or another count of entries than its length.
    Rom { span: Span },
    Memory,
}
