/// Why tokens are no text. `token` counts tokens.
#[derive(Clone, Copy, Debug, PartialEq, Eq)]
pub enum ParseErr {
    /// No text begins with the tokens up to this one, or, where it is the count of tokens, the text ends too early.
    At { token: u32 },
    /// The tokens up to this one begin a text, and it is the first that nests deeper than 64.
    Deep { token: u32 },
    Memory,
}
