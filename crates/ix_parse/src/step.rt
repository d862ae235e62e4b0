ghost use Rattle.ix_tree.specs.Machine.{step};
ghost use Rattle.ix_parse_state.specs.Views.{stack_of, of_goal, of_place, reader_of};
ghost use Rattle.ix_parse_state.specs.Moves.{Moves};

use crate::stmt::stmt_step;
use ix_parse_expr::assign::assign_step;
use ix_parse_expr::expr::expr_step;
use ix_parse_section::fixed::{first_wanted, fixed_step};
use ix_parse_section::instr::instr_step;
use ix_parse_section::section::text_step;
use ix_parse_state::frame::Frame;
use ix_parse_state::state::{Goal, Place, Reader};
use ix_parse_state::stop::Stop;
use ix_parse_state::types::type_step;
use ix_tree::Token;
use std::alloc::Global;

/// What the token leads to where no fixed token is wanted.
fn place_step(alloc: Global, place: Place, token: &Token) -> Result<Reader, Stop>
    ensures { Moves result (step (of_place place) token.now) }
{
    match place {
        Place::Inside(goal, stack) => goal_step(alloc, goal, stack, token),
        Place::Instr(goal, instr) => instr_step(alloc, goal, instr, token),
        Place::Text(goal) => text_step(alloc, goal, token),
    }
}

/// What the token leads to inside of the open productions.
fn goal_step(alloc: Global, goal: Goal, stack: Vec<Frame>, token: &Token) -> Result<Reader, Stop>
    ensures { Moves result (step (of_goal goal (stack_of stack.items)) token.now) }
{
    match goal {
        Goal::Expr(goal) => expr_step(alloc, goal, stack, token),
        Goal::Type(goal) => type_step(alloc, goal, stack, token),
        Goal::Assign(goal) => assign_step(alloc, goal, stack, token),
        Goal::Stmt(goal) => stmt_step(alloc, goal, stack, token),
    }
}

/// What the token leads to: where the reader stands behind it, or why it cannot be read.
pub fn step(alloc: Global, reader: Reader, token: &Token) -> Result<Reader, Stop>
    ensures { Moves result (step (reader_of reader) token.now) }
{
    let Reader { fixed, place } = reader;
    match first_wanted(fixed) {
        None => place_step(alloc, place, token),
        Some(wanted) => fixed_step(wanted, place, token),
    }
}
