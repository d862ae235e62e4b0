ghost use Rattle.std.specs.Prelude.{◌≡◌, ◌<◌, ◌^◌, length, IfOk, IfErr, IsOkUnless};
ghost use Rattle.ix_tree.specs.View.{view_tree, DerivesTree};
ghost use Rattle.ix_tree.specs.TypedView.{typed_tree};
ghost use Rattle.ix_extension.specs.Extensions.{ExtensionTree, view_extension};
ghost use Rattle.ix_extension.specs.WellFormed.{IsWellFormed};
ghost use Rattle.ix_encode.specs.Telling.{fault_of};
ghost use Rattle.ix_elab.specs.Elaborating.{IsTree, IsUnrolled, HasTypes, Elaborates};
ghost use Rattle.ix_elab.specs.Refusing.{of_unroll, of_check, IsCause, IsNoTree, span_at, IsBrokenAs, IsRefused, IsErr};

use crate::FrontErr;
use ix_check::{CheckErr, check};
use ix_encode::{EncodeErr, encode};
use ix_lex::{LexErr, lex};
use ix_parse::{ParseErr, parse};
use ix_tree::{Extension, Span, Token, Tree, Typed};
use ix_unroll::{UnrollErr, unroll};
use std::alloc::Global;

/// The extension of a text of fewer than 2^32 bytes, or the first thing in it that is refused.
pub fn elaborate(alloc: Global, bytes: &[u8]) -> Result<Extension, FrontErr>
    requires { length bytes.now < 2 ^ 32 }
    // The extension is that of the text.
    ensures extension { IfOk result (λ x. Elaborates bytes.now (view_extension x)) }
    // It is well formed.
    ensures well_formed { IfOk result (λ x. IsWellFormed x) }
    // Where the text has an extension, only memory can fail.
    ensures only { (x : ExtensionTree) → Elaborates bytes.now x → IsOkUnless result FrontErr.Memory }
    // What is told is refused first.
    ensures cause { IfErr result (λ e. IsCause bytes.now e) }
    // And what is refused first is told, unless memory fails.
    ensures refuses { (e : FrontErr) → IsRefused bytes.now e → IsErr result e }
{
    encoded(alloc, bytes)
}

// The extension.
fn encoded(alloc: Global, bytes: &[u8]) -> Result<Extension, FrontErr>
    requires { length bytes.now < 2 ^ 32 }
    ensures extension { IfOk result (λ x. Elaborates bytes.now (view_extension x)) }
    ensures well_formed { IfOk result (λ x. IsWellFormed x) }
    ensures cause { IfErr result (λ e. IsCause bytes.now e) }
{
    match typed(alloc, bytes) {
        Err(error) => Err(error),
        Ok(typed) => match encode(alloc, typed) {
            Err(error) => Err(broken(error)),
            Ok(extension) => Ok(extension),
        },
    }
}

// The tree without loops, with its types.
fn typed(alloc: Global, bytes: &[u8]) -> Result<Typed, FrontErr>
    requires { length bytes.now < 2 ^ 32 }
    ensures types { IfOk result (λ t. HasTypes bytes.now (typed_tree t)) }
    ensures cause { IfErr result (λ e. IsCause bytes.now e) }
{
    match unrolled(alloc, bytes) {
        Err(error) => Err(error),
        Ok(tree) => match check(alloc, tree) {
            Err(error) => Err(untyped(error)),
            Ok(typed) => Ok(typed),
        },
    }
}

// The tree without loops.
fn unrolled(alloc: Global, bytes: &[u8]) -> Result<Tree, FrontErr>
    requires { length bytes.now < 2 ^ 32 }
    ensures tree { IfOk result (λ t. IsUnrolled bytes.now (view_tree t)) }
    ensures cause { IfErr result (λ e. IsCause bytes.now e) }
{
    match tree(alloc, bytes) {
        Err(error) => Err(error),
        Ok(tree) => match unroll(alloc, tree) {
            Err(error) => Err(looped(error)),
            Ok(tree) => Ok(tree),
        },
    }
}

// The tree of the text.
fn tree(alloc: Global, bytes: &[u8]) -> Result<Tree, FrontErr>
    requires { length bytes.now < 2 ^ 32 }
    ensures tree { IfOk result (λ t. IsTree bytes.now (view_tree t)) }
    ensures cause { IfErr result (λ e. IsCause bytes.now e) }
{
    match lex(alloc, bytes) {
        Err(LexErr::Memory) => Err(FrontErr::Memory),
        Err(error) => Err(FrontErr::Lex(error)),
        Ok(tokens) => parsed(alloc, tokens.as_slice(), bytes.len() as u32),
    }
}

// The tree of the tokens of a text of `end` bytes.
fn parsed(alloc: Global, tokens: &[Token], end: u32) -> Result<Tree, FrontErr>
    requires { length tokens.now < 2 ^ 32 }
    ensures tree { IfOk result (λ t. DerivesTree tokens.now t) }
    ensures cause { IfErr result (λ e. IsNoTree tokens.now end e) }
{
    match parse(alloc, tokens) {
        Ok(tree) => Ok(tree),
        Err(ParseErr::At { token }) => Err(FrontErr::Parse {
            span: span_at(tokens, token, end),
            deep: false,
        }),
        Err(ParseErr::Deep { token }) => Err(FrontErr::Parse {
            span: span_at(tokens, token, end),
            deep: true,
        }),
        Err(ParseErr::Memory) => Err(FrontErr::Memory),
    }
}

// Where a token stands; for the place behind the last one, the end of the text.
fn span_at(tokens: &[Token], token: u32, end: u32) -> Span
    ensures { result ≡ span_at tokens.now token end }
{
    match tokens.get(token as usize) {
        Some(token) => token.span,
        None => Span { from: end, to: end },
    }
}

// What is told where the loops are refused.
fn looped(error: UnrollErr) -> FrontErr
    ensures { result ≡ of_unroll error }
{
    match error {
        UnrollErr::Memory => FrontErr::Memory,
        _ => FrontErr::Unroll(error),
    }
}

// What is told where a rule of typing is broken.
fn untyped(error: CheckErr) -> FrontErr
    ensures { result ≡ of_check error }
{
    match error {
        CheckErr::Memory => FrontErr::Memory,
        _ => FrontErr::Check(error),
    }
}

// The error that tells the same rule.
fn broken(error: EncodeErr) -> FrontErr
    ensures { IsBrokenAs (fault_of error) result }
{
    match error {
        EncodeErr::EncodingWidth { a } => FrontErr::EncodingWidth { a },
        EncodeErr::FieldTwice { a } => FrontErr::FieldTwice { a },
        EncodeErr::TooMany => FrontErr::TooMany,
        EncodeErr::BaseOverlap { a, word } => FrontErr::BaseOverlap { a, word },
        EncodeErr::Overlap { a, b, word } => FrontErr::Overlap { a, b, word },
        EncodeErr::TwoPcBlocks => FrontErr::TwoPcBlocks,
        EncodeErr::Memory => FrontErr::Memory,
    }
}
