ghost use Rattle.std.specs.Prelude.{◌≡◌};
ghost use Rattle.ix_verilog.specs.Words.{words_of};
ghost use Rattle.ix_vform.specs.Found.{IsFound, IsFoundIn};

use crate::scope::Scope;
use crate::slot::reach_of;
use ix_verilog::Token;
use ix_vline::{Kind, Right};

/// The line with which words begin: its kind and the count of its words; or how many of them begin a line.
#[derive(Clone, Copy)]
pub enum Found {
    Line(Kind, usize),
    Part(usize),
}

const KINDS: [Kind; 19] = [
    Kind::Head,
    Kind::Port,
    Kind::Heading,
    Kind::Input,
    Kind::Output,
    Kind::Wire,
    Kind::Register,
    Kind::Assign(Right::Literal),
    Kind::Assign(Right::Copy),
    Kind::Assign(Right::Both),
    Kind::Assign(Right::Turned),
    Kind::Assign(Right::Signed),
    Kind::Assign(Right::Joined),
    Kind::Assign(Right::Range),
    Kind::Assign(Right::Choice),
    Kind::Always,
    Kind::Update,
    Kind::Done,
    Kind::Finish,
];

/// What is found among these kinds.
fn found_in(scope: &Scope, tokens: &[Token], kinds: &[Kind]) -> Found
    ensures { IsFoundIn scope.now (words_of tokens.now) kinds.now result }
{
    match kinds {
        [] => Found::Part(0),
        [kind, others @ ..] => {
            let reach = reach_of(scope, *kind, tokens);
            if reach.is_whole {
                return Found::Line(*kind, reach.words);
            }
            match found_in(scope, tokens, others) {
                Found::Line(other, words) => Found::Line(other, words),
                Found::Part(words) => Found::Part(words.max(reach.words)),
            }
        }
    }
}

/// What stands at the front of the words, which are behind the lines of the scope.
pub fn line_in(scope: &Scope, tokens: &[Token]) -> Found
    ensures { IsFound scope.now (words_of tokens.now) result }
{
    found_in(scope, tokens, &KINDS)
}
