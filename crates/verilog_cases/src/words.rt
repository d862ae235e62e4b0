use ix_bits::Memory;
use ix_verilog::Token;
use ix_vread::words_in;
use std::alloc::{AllocError, Global};

/// Past the greatest count of bytes that a text may have.
pub const TOO_MANY: usize = 0x1_0000_0000;

fn words(alloc: Global, text: &[u8]) -> Result<Vec<Token>, Memory> {
    if text.len() >= TOO_MANY {
        return Err(Memory);
    }
    Ok(words_in(alloc, text)?.into_vec())
}

fn put_tokens(out: &mut String, tokens: &[Token]) -> Result<(), AllocError> {
    for token in tokens {
        let word = str::from_utf8(token.word.as_slice()).unwrap_or("?");
        write!(out, "{} {word}\n", token.place)?;
    }
    Ok(())
}

/// Puts the words of a text with their places, a line each, and `--` behind them.
pub fn put_words(out: &mut String, alloc: Global, text: &[u8]) -> Result<(), AllocError> {
    match words(alloc, text) {
        Ok(tokens) => put_tokens(out, tokens.as_slice())?,
        Err(_) => out.push_str("no memory\n")?,
    }
    out.push_str("--\n")
}
