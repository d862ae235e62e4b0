ghost use Rattle.std.specs.Prelude.{◌≡◌, ◌<◌, [], ◌∷◌, length, IfOk, MatchOption, Contains};
ghost use Rattle.ix_verilog.specs.declared.right.Sign.{Sign as sign_type};
ghost use Rattle.ix_verilog.specs.Lines.{operators, sign_word};
ghost use Rattle.ix_verilog.specs.Words.{words_of};
ghost use Rattle.ix_vline.specs.Slots.{slots};
ghost use Rattle.ix_vline.specs.Reached.{Fits};
ghost use Rattle.ix_vline.specs.Picked.{nth, IsSideOf};

use crate::line::name_at;
use ix_bits::{List, Memory};
use ix_verilog::{RightSide, Sign, Token};
use ix_vform::Scope;
use ix_vline::{Kind, Right};
use std::alloc::Global;

/// The word at a place.
fn word_in(tokens: &[Token], place: usize) -> &[u8]
    requires { place < length tokens.now }
    ensures { result.now ≡ nth place (words_of tokens.now) }
{
    tokens[place].word.as_slice()
}

/// A copy of the word at a place.
fn word_at(alloc: Global, tokens: &[Token], place: usize) -> Result<List<u8>, Memory>
    requires { place < length tokens.now }
    ensures { IfOk result (λ word. word ≡ nth place (words_of tokens.now)) }
{
    List::from_slice(alloc, word_in(tokens, place))
}

/// `8'h2a`.
fn literal_at(alloc: Global, tokens: &[Token]) -> Result<RightSide, Memory>
    requires { length tokens.now ≡ 5 }
    ensures { IfOk result (IsSideOf Right.Literal (words_of tokens.now)) }
{
    let word = word_at(alloc, tokens, 3)?;
    Ok(RightSide::Literal(word))
}

/// `a`.
fn copy_at(alloc: Global, tokens: &[Token]) -> Result<RightSide, Memory>
    requires { length tokens.now ≡ 5 }
    ensures { IfOk result (IsSideOf Right.Copy (words_of tokens.now)) }
{
    let name = name_at(alloc, tokens, 3)?;
    Ok(RightSide::Copy(name))
}

/// The sign of one byte.
fn byte_sign(byte: u8) -> Option<Sign>
    ensures { MatchOption result ((s : sign_type) → sign_word s ≡ byte ∷ [] → ⊥) (λ s. sign_word s ≡ byte ∷ []) }
{
    match byte {
        b'+' => Some(Sign::Plus),
        b'-' => Some(Sign::Minus),
        b'*' => Some(Sign::Times),
        b'&' => Some(Sign::And),
        b'|' => Some(Sign::Or),
        b'^' => Some(Sign::Xor),
        b'<' => Some(Sign::Less),
        _ => None,
    }
}

/// The sign that a word is.
fn sign_in(word: &[u8]) -> Option<Sign>
    ensures { MatchOption result ((s : sign_type) → sign_word s ≡ word.now → ⊥) (λ s. sign_word s ≡ word.now) }
{
    match word {
        [byte] => byte_sign(*byte),
        [first, second] => {
            if *first == b'=' && *second == b'=' {
                Some(Sign::Equal)
            } else {
                None
            }
        }
        _ => None,
    }
}

/// `a + b` and the like.
fn both_at(alloc: Global, tokens: &[Token]) -> Result<RightSide, Memory>
    requires size { length tokens.now ≡ 7 }
    requires operator { Contains operators (nth 4 (words_of tokens.now)) }
    ensures { IfOk result (IsSideOf Right.Both (words_of tokens.now)) }
{
    let Some(sign) = sign_in(word_in(tokens, 4)) else {
        unreachable!()
    };
    let first = name_at(alloc, tokens, 3)?;
    let second = name_at(alloc, tokens, 5)?;
    Ok(RightSide::Both(sign, first, second))
}

/// `~a`.
fn turned_at(alloc: Global, tokens: &[Token]) -> Result<RightSide, Memory>
    requires { length tokens.now ≡ 6 }
    ensures { IfOk result (IsSideOf Right.Turned (words_of tokens.now)) }
{
    let name = name_at(alloc, tokens, 4)?;
    Ok(RightSide::Turned(name))
}

/// `$signed(a) < $signed(b)`.
fn signed_at(alloc: Global, tokens: &[Token]) -> Result<RightSide, Memory>
    requires { length tokens.now ≡ 13 }
    ensures { IfOk result (IsSideOf Right.Signed (words_of tokens.now)) }
{
    let first = name_at(alloc, tokens, 5)?;
    let second = name_at(alloc, tokens, 10)?;
    Ok(RightSide::Signed(first, second))
}

/// `{a, b}`.
fn joined_at(alloc: Global, tokens: &[Token]) -> Result<RightSide, Memory>
    requires { length tokens.now ≡ 9 }
    ensures { IfOk result (IsSideOf Right.Joined (words_of tokens.now)) }
{
    let high = name_at(alloc, tokens, 4)?;
    let low = name_at(alloc, tokens, 6)?;
    Ok(RightSide::Joined(high, low))
}

/// `a[h:l]`.
fn range_at(alloc: Global, tokens: &[Token]) -> Result<RightSide, Memory>
    requires { length tokens.now ≡ 10 }
    ensures { IfOk result (IsSideOf Right.Range (words_of tokens.now)) }
{
    let high = word_at(alloc, tokens, 5)?;
    let low = word_at(alloc, tokens, 7)?;
    let source = name_at(alloc, tokens, 3)?;
    Ok(RightSide::Range { source, high, low })
}

/// `c ? a : b`.
fn choice_at(alloc: Global, tokens: &[Token]) -> Result<RightSide, Memory>
    requires { length tokens.now ≡ 9 }
    ensures { IfOk result (IsSideOf Right.Choice (words_of tokens.now)) }
{
    let condition = name_at(alloc, tokens, 3)?;
    let first = name_at(alloc, tokens, 5)?;
    let second = name_at(alloc, tokens, 7)?;
    Ok(RightSide::Choice(condition, first, second))
}

/// The right side of an `assign` line of the kind, which these words are.
pub(crate) fn right_at(
    alloc: Global,
    scope: &Scope,
    right: Right,
    tokens: &[Token],
) -> Result<RightSide, Memory>
    requires { Fits scope.now (slots (Kind.Assign right)) (words_of tokens.now) }
    ensures { IfOk result (IsSideOf right (words_of tokens.now)) }
{
    match right {
        Right::Literal => literal_at(alloc, tokens),
        Right::Copy => copy_at(alloc, tokens),
        Right::Both => both_at(alloc, tokens),
        Right::Turned => turned_at(alloc, tokens),
        Right::Signed => signed_at(alloc, tokens),
        Right::Joined => joined_at(alloc, tokens),
        Right::Range => range_at(alloc, tokens),
        Right::Choice => choice_at(alloc, tokens),
    }
}
