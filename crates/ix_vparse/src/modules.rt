ghost use Rattle.std.specs.Prelude.{IfOk, IfErr};
ghost use Rattle.ix_verilog.specs.Words.{words_of};
ghost use Rattle.ix_verilog.specs.Subset.{AreModules};
ghost use Rattle.ix_vparse.specs.Answers.{IsTold};

use crate::error::ParseErr;
use crate::line::take_line;
use ix_bits::List;
use ix_verilog::{Source, Token};
use ix_vform::{Found, Scope, line_in};
use std::alloc::Global;

/// The modules that words are, in their order.
pub fn modules_in(alloc: Global, tokens: &[Token]) -> Result<List<Source>, ParseErr>
    ensures modules { IfOk result (AreModules (words_of tokens.now)) }
    ensures refused { IfErr result (IsTold (words_of tokens.now)) }
{
    let mut modules = List::new(alloc);
    let mut scope = Scope::new();
    let mut at = 0;
    while at < tokens.len() {
        let rest = &tokens[at..];
        match line_in(&scope, rest) {
            Found::Line(kind, words) => {
                match take_line(alloc, &mut scope, kind, &rest[..words], &mut modules) {
                    Ok(()) => at += words,
                    Err(_) => return Err(ParseErr::Memory),
                }
            }
            Found::Part(words) => return Err(ParseErr::At { word: at + words }),
        }
    }
    if scope.is_open() {
        return Err(ParseErr::At { word: tokens.len() });
    }
    Ok(modules)
}
