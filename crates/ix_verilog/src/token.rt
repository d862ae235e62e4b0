use ix_bits::List;

/// A word of a text and the place of its first byte.
#[derive(Debug, Drop)]
pub struct Token {
    pub place: u32,
    pub word: List<u8>,
}
