ghost use Rattle.std.specs.Prelude.{◌≡◌, map};
ghost use Rattle.ix_tree.specs.Tokens.{words, symbols};
ghost use Rattle.ix_tree.specs.Laws.{TreeLaw, NestingLaw, LexingLaw, ExampleLaw};
ghost use Rattle.ix_tree.specs.Parsing.{VerdictLaw, SomeVerdictLaw};

use crate::{SYMBOLS, WORDS};

/// Laws of the grammar. It does nothing: its contract is what it is for.
pub fn grammar_laws()
    ensures tree { TreeLaw }
    ensures nesting { NestingLaw }
    ensures verdict { VerdictLaw }
    ensures some_verdict { SomeVerdictLaw }
    ensures lexing { LexingLaw }
    ensures example { ExampleLaw }
{}

/// The tables of the code are those of the grammar. It does nothing: its contract is what it is for.
pub fn table_laws()
    ensures words { map (λ text. text.now) WORDS ≡ words }
    ensures symbols { map (λ text. text.now) SYMBOLS ≡ symbols }
{}
