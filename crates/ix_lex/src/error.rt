/// Why a text has no tokens. `at` counts bytes: the tokens before it are the text's, and none begins there.
#[derive(Clone, Copy, Debug, PartialEq, Eq)]
pub enum LexErr {
    /// No token, white space or comment begins with this byte, or a name is too long.
    BadByte { at: u32 },
    /// A comment or a string has no end.
    Unclosed { at: u32 },
    /// The run of letters, digits, `_` and `'` from this digit on is no literal.
    BadNumber { at: u32 },
    Memory,
}
