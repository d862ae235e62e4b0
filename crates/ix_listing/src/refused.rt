ghost use Rattle.std.specs.Prelude.{◌≡◌, ◌≢◌, ◌++◌, codes, string_bytes, IfOk, OnOk};
ghost use Rattle.ix_listing.specs.RefusalLine.{front, rule_line, span_line, byte_line, name_line, word_end, word_line, pair_line, lex_line, parse_line, unroll_line, check_line, refusal_line};

use crate::put::{put, put_number, put_word};
use ix_bits::{Memory, Name};
use ix_check_parts::CheckErr;
use ix_elab::FrontErr;
use ix_lex::LexErr;
use ix_tree::Span;
use ix_unroll::UnrollErr;
use std::alloc::Global;

/// Appends what the line of a rule begins with.
fn put_front(out: &mut String, rule: &str) -> Result<(), Memory>
    ensures { OnOk result (string_bytes out.new ≡ string_bytes out.old ++ front rule.now) }
{
    put(out, "refused Extension ")?;
    put(out, rule)
}

fn put_rule(out: &mut String, rule: &str) -> Result<(), Memory>
    ensures { OnOk result (string_bytes out.new ≡ string_bytes out.old ++ rule_line rule.now) }
{
    put_front(out, rule)?;
    put(out, "\n")
}

fn put_span(out: &mut String, rule: &str, span: Span) -> Result<(), Memory>
    ensures { OnOk result (string_bytes out.new ≡ string_bytes out.old ++ span_line rule.now span) }
{
    put_front(out, rule)?;
    put(out, " ")?;
    put_number(out, u64::from(span.from))?;
    put(out, " ")?;
    put_number(out, u64::from(span.to))?;
    put(out, "\n")
}

fn put_byte(out: &mut String, rule: &str, at: u32) -> Result<(), Memory>
    ensures { OnOk result (string_bytes out.new ≡ string_bytes out.old ++ byte_line rule.now at) }
{
    put_span(out, rule, Span { from: at, to: at })
}

fn put_name(out: &mut String, rule: &str, name: &Name) -> Result<(), Memory>
    ensures { OnOk result (string_bytes out.new ≡ string_bytes out.old ++ name_line rule.now name.now) }
{
    put_front(out, rule)?;
    put(out, " ")?;
    put(out, name.as_str())?;
    put(out, "\n")
}

/// Appends a word behind a space, and the end of the line.
fn put_word_end(out: &mut String, word: u32) -> Result<(), Memory>
    ensures { OnOk result (string_bytes out.new ≡ string_bytes out.old ++ word_end word) }
{
    put(out, " ")?;
    put_word(out, word)?;
    put(out, "\n")
}

fn put_shared(out: &mut String, rule: &str, a: &Name, word: u32) -> Result<(), Memory>
    ensures { OnOk result (string_bytes out.new ≡ string_bytes out.old ++ word_line rule.now a.now word) }
{
    put_front(out, rule)?;
    put(out, " ")?;
    put(out, a.as_str())?;
    put_word_end(out, word)
}

fn put_pair(out: &mut String, rule: &str, a: &Name, b: &Name, word: u32) -> Result<(), Memory>
    ensures { OnOk result (string_bytes out.new ≡ string_bytes out.old ++ pair_line rule.now a.now b.now word) }
{
    put_front(out, rule)?;
    put(out, " ")?;
    put(out, a.as_str())?;
    put(out, " ")?;
    put(out, b.as_str())?;
    put_word_end(out, word)
}

fn put_lex(out: &mut String, error: LexErr) -> Result<(), Memory>
    ensures { OnOk result (string_bytes out.new ≡ string_bytes out.old ++ lex_line error) }
{
    match error {
        LexErr::BadByte { at } => put_byte(out, "BadByte", at),
        LexErr::Unclosed { at } => put_byte(out, "Unclosed", at),
        LexErr::BadNumber { at } => put_byte(out, "BadNumber", at),
        LexErr::Memory => Err(Memory),
    }
}

fn put_parse(out: &mut String, span: Span, deep: bool) -> Result<(), Memory>
    ensures { OnOk result (string_bytes out.new ≡ string_bytes out.old ++ parse_line span deep) }
{
    if deep {
        put_span(out, "Deep", span)
    } else {
        put_span(out, "At", span)
    }
}

fn put_unroll(out: &mut String, error: UnrollErr) -> Result<(), Memory>
    ensures { OnOk result (string_bytes out.new ≡ string_bytes out.old ++ unroll_line error) }
{
    match error {
        UnrollErr::Bound { span } => put_span(out, "Bound", span),
        UnrollErr::Turns { span } => put_span(out, "Turns", span),
        UnrollErr::Assigned { span } => put_span(out, "Assigned", span),
        UnrollErr::Size { span } => put_span(out, "Size", span),
        UnrollErr::Memory => Err(Memory),
    }
}

fn put_check(out: &mut String, error: CheckErr) -> Result<(), Memory>
    ensures { OnOk result (string_bytes out.new ≡ string_bytes out.old ++ check_line error) }
{
    match error {
        CheckErr::Unknown { span } => put_span(out, "Unknown", span),
        CheckErr::Twice { span } => put_span(out, "Twice", span),
        CheckErr::Narrow { span } => put_span(out, "Narrow", span),
        CheckErr::TooWide { span } => put_span(out, "TooWide", span),
        CheckErr::Mixed { span } => put_span(out, "Mixed", span),
        CheckErr::Range { span } => put_span(out, "Range", span),
        CheckErr::Index { span } => put_span(out, "Index", span),
        CheckErr::ReadAfterWrite { span } => put_span(out, "ReadAfterWrite", span),
        CheckErr::DoubleWrite { span } => put_span(out, "DoubleWrite", span),
        CheckErr::SecondAccess { span } => put_span(out, "SecondAccess", span),
        CheckErr::InSpawn { span } => put_span(out, "InSpawn", span),
        CheckErr::Rom { span } => put_span(out, "Rom", span),
        CheckErr::Memory => Err(Memory),
    }
}

/// Appends the line of a refusal.
fn put_refusal(out: &mut String, error: &FrontErr) -> Result<(), Memory>
    ensures text { OnOk result (string_bytes out.new ≡ string_bytes out.old ++ refusal_line error.now) }
    ensures some { OnOk result (error.now ≢ FrontErr.Memory) }
{
    match error {
        FrontErr::Lex(error) => put_lex(out, *error),
        FrontErr::Parse { span, deep } => put_parse(out, *span, *deep),
        FrontErr::Unroll(error) => put_unroll(out, *error),
        FrontErr::Check(error) => put_check(out, *error),
        FrontErr::EncodingWidth { a } => put_name(out, "EncodingWidth", a),
        FrontErr::FieldTwice { a } => put_name(out, "FieldTwice", a),
        FrontErr::TooMany => put_rule(out, "TooMany"),
        FrontErr::BaseOverlap { a, word } => put_shared(out, "BaseOverlap", a, *word),
        FrontErr::Overlap { a, b, word } => put_pair(out, "Overlap", a, b, *word),
        FrontErr::TwoPcBlocks => put_rule(out, "TwoPcBlocks"),
        FrontErr::Memory => Err(Memory),
    }
}

/// The line of a refusal: `refused Extension RULE`, and behind it the span of what is refused in bytes, or the instructions and
/// the word that they share. Want of memory has no line, and is answered as such.
pub fn refusal(alloc: Global, error: &FrontErr) -> Result<String, Memory>
    ensures text { IfOk result (λ text. string_bytes text ≡ refusal_line error.now) }
    ensures some { OnOk result (error.now ≢ FrontErr.Memory) }
{
    let mut out = String::new(alloc);
    put_refusal(&mut out, error)?;
    Ok(out)
}
