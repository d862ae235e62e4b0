use ix_lex::LexErr;
use ix_tree::Span;
use ix_unroll::UnrollErr;
use std::alloc::AllocError;

/// The word of a refusal and the byte at which it stands; `None` for want of memory.
pub(crate) fn lex_refusal(error: LexErr) -> Option<(&'static str, u32)> {
    match error {
        LexErr::BadByte { at } => Some(("BadByte", at)),
        LexErr::Unclosed { at } => Some(("Unclosed", at)),
        LexErr::BadNumber { at } => Some(("BadNumber", at)),
        LexErr::Memory => None,
    }
}

/// Puts why a text has no tokens, as `BadNumber 4`.
pub(crate) fn put_lex_error(out: &mut String, error: LexErr) -> Result<(), AllocError> {
    match lex_refusal(error) {
        Some((word, at)) => write!(out, "{word} {at}"),
        None => out.push_str("Memory"),
    }
}

/// Puts the rule of loops that a tree breaks, and where, as `Bound 116 119`.
pub(crate) fn put_unroll_error(out: &mut String, error: UnrollErr) -> Result<(), AllocError> {
    match error {
        UnrollErr::Bound { span } => put_place(out, "Bound", span),
        UnrollErr::Turns { span } => put_place(out, "Turns", span),
        UnrollErr::Assigned { span } => put_place(out, "Assigned", span),
        UnrollErr::Size { span } => put_place(out, "Size", span),
        UnrollErr::Memory => out.push_str("Memory"),
    }
}

/// Puts the word of a refusal and its place.
pub(crate) fn put_place(out: &mut String, word: &str, span: Span) -> Result<(), AllocError> {
    write!(out, "{word} {} {}", span.from, span.to)
}
