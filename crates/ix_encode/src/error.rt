ghost use Rattle.std.specs.Prelude.{◌≡◌};
ghost use Rattle.ix_encode.specs.declared.error.EncodeErr.TheVariants.{Memory};

use ix_bits::Name;

/// Which rule on encodings and counts a typed text breaks first, in the order of the variants, and by which instructions.
#[derive(Debug, Drop)]
pub enum EncodeErr {
    /// The pieces of the instruction do not have 32 bits.
    EncodingWidth { a: Name },
    /// A bit of a field of the instruction is given twice.
    FieldTwice { a: Name },
    /// More than 64 instructions, 16 registers, 8 always-blocks or 4,096 entries of tables.
    TooMany,
    /// The word is one of the instruction and of a base row.
    BaseOverlap { a: Name, word: u32 },
    /// The word is one of both instructions.
    Overlap { a: Name, b: Name, word: u32 },
    /// Two always-blocks write PC.
    TwoPcBlocks,
    Memory,
}

impl From<ix_bits::Memory> for EncodeErr {
    ghost from_gives = { λ _ e. e ≡ Memory };

    fn from(_error: ix_bits::Memory) -> EncodeErr {
        EncodeErr::Memory
    }
}
