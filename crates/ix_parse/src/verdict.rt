ghost use Rattle.std.specs.Prelude.{ℕ, ◌≡◌, ◌^◌, ◌<◌, [], length, IfOk, IfErr, IfSome, IfNone};
ghost use Rattle.ix_tree.specs.Trees.{TextTree};
ghost use Rattle.ix_tree.specs.Grammar.{Derives};
ghost use Rattle.ix_tree.specs.Parsing.{IsRefusedAt, IsTooDeepAt, is_tree, refused_at, too_deep_at};
ghost use Rattle.ix_tree.specs.View.{DerivesTree, view_tree};
ghost use Rattle.ix_tree.specs.Machine.{ended, finish, stuck};
ghost use Rattle.ix_parse_state.specs.Views.{of_place, of_text, reader_of};
ghost use Rattle.ix_parse.specs.Answers.{IsAnswer, IsTold};

use crate::error::ParseErr;
use crate::step::step;
use ix_parse_state::reader::in_text;
use ix_parse_state::state::{Fixed, Place, Reader, TextGoal};
use ix_parse_state::stop::Stop;
use ix_tree::{Token, Tree};
use std::alloc::Global;

/// The tree of a text of fewer than 2^32 tokens, or the first token that no text goes on with, or that nests too deep.
pub fn parse(alloc: Global, tokens: &[Token]) -> Result<Tree, ParseErr>
    requires { length tokens.now < 2 ^ 32 }
    ensures found { IfOk result (λ tree. DerivesTree tokens.now tree) }
    ensures only { (tree : TextTree) → Derives tokens.now tree → IsAnswer result (is_tree tree) }
    ensures place { IfErr result (λ e. IsTold tokens.now e) }
    ensures refuses { (n : ℕ) → IsRefusedAt tokens.now n → IsAnswer result (refused_at n) }
    ensures deepens { (n : ℕ) → IsTooDeepAt tokens.now n → IsAnswer result (too_deep_at n) }
{
    read(alloc, tokens)
}

/// Reads all tokens, one after the other.
fn read(alloc: Global, tokens: &[Token]) -> Result<Tree, ParseErr>
    requires { length tokens.now < 2 ^ 32 }
    ensures found { IfOk result (λ tree. DerivesTree tokens.now tree) }
    ensures place { IfErr result (λ e. IsTold tokens.now e) }
{
    let mut reader = in_text(TextGoal::Starting);
    let mut at = 0;
    while at < tokens.len() {
        match step(alloc, reader, &tokens[at]) {
            Ok(next) => reader = next,
            Err(Stop::Refused) => return Err(ParseErr::At { token: at as u32 }),
            Err(Stop::Deep) => return Err(ParseErr::Deep { token: at as u32 }),
            Err(Stop::Memory) => return Err(ParseErr::Memory),
        }
        at += 1;
    }
    match whole(reader) {
        Some(tree) => Ok(tree),
        None => Err(ParseErr::At { token: at as u32 }),
    }
}

/// The tree where the text has ended.
fn whole(reader: Reader) -> Option<Tree>
    ensures some { IfSome result (λ tree. reader_of reader ≡ ended (view_tree tree)) }
    ensures none { IfNone result (finish (reader_of reader) ≡ stuck []) }
{
    let Reader { fixed, place } = reader;
    match fixed {
        Fixed::None => whole_at(place),
        _ => {
            drop(place);
            None
        }
    }
}

/// The tree where no fixed token is wanted and the text has ended.
fn whole_at(place: Place) -> Option<Tree>
    ensures some { IfSome result (λ tree. of_place place ≡ ended (view_tree tree)) }
    ensures none { IfNone result (finish (of_place place) ≡ stuck []) }
{
    match place {
        Place::Text(goal) => ended_tree(goal),
        other => {
            drop(other);
            None
        }
    }
}

/// The tree of the text that has ended.
fn ended_tree(goal: TextGoal) -> Option<Tree>
    ensures some { IfSome result (λ tree. of_text goal ≡ ended (view_tree tree)) }
    ensures none { IfNone result (finish (of_text goal) ≡ stuck []) }
{
    match goal {
        TextGoal::Ended(tree) => Some(tree),
        other => {
            drop(other);
            None
        }
    }
}
