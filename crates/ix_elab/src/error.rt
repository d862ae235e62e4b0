use ix_bits::Name;
use ix_check::CheckErr;
use ix_lex::LexErr;
use ix_tree::Span;
use ix_unroll::UnrollErr;

/// Why a text has no extension: the first of these, in their order. Spans are in bytes.
#[derive(Debug, Drop)]
pub enum FrontErr {
    /// The bytes have no tokens.
    Lex(LexErr),
    /// No text begins with the tokens up to this one, or, where it is `deep`, this one nests deeper than 64. At the end of the
    /// text the span is its length twice.
    Parse { span: Span, deep: bool },
    /// A loop breaks a rule, or there are too many statements.
    Unroll(UnrollErr),
    /// A rule of typing is broken.
    Check(CheckErr),
    /// The pieces of the instruction do not have 32 bits.
    EncodingWidth { a: Name },
    /// A bit of a field of the instruction is given twice.
    FieldTwice { a: Name },
    /// More than 64 instructions, 16 registers, 8 always-blocks or 4,096 entries of tables.
    TooMany,
    /// The word is one of the instruction and of a base row.
    BaseOverlap { a: Name, word: u32 },
    /// The word is one of both instructions.
    Overlap { a: Name, b: Name, word: u32 },
    /// Two always-blocks write PC.
    TwoPcBlocks,
    Memory,
}
