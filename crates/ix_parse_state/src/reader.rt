ghost use Rattle.std.specs.Prelude.{◌≡◌};
ghost use Rattle.ix_parse_state.specs.Views.{stack_of, instr_of, of_goal, of_expr, of_type, of_assign, of_stmt, of_instr, of_text, of_fixed, of_place, reader_of};

use crate::frame::{Frame, OpenInstr};
use crate::state::{
    AssignGoal, ExprGoal, Fixed, Goal, InstrGoal, Place, Reader, StmtGoal, TextGoal, TypeGoal,
};

/// The reader inside of the open productions.
#[tactic(auto, unfolding(crate::specs::Views::reader_of, crate::specs::Views::of_place))]
pub fn inside(goal: Goal, stack: Vec<Frame>) -> Reader
    ensures { reader_of result ≡ of_goal goal (stack_of stack.items) }
{
    Reader {
        fixed: Fixed::None,
        place: Place::Inside(goal, stack),
    }
}

/// The reader inside of an expression.
pub fn in_expr(goal: ExprGoal, stack: Vec<Frame>) -> Reader
    ensures { reader_of result ≡ of_expr goal (stack_of stack.items) }
{
    inside(Goal::Expr(goal), stack)
}

/// The reader inside of a type.
pub fn in_type(goal: TypeGoal, stack: Vec<Frame>) -> Reader
    ensures { reader_of result ≡ of_type goal (stack_of stack.items) }
{
    inside(Goal::Type(goal), stack)
}

/// The reader inside of an assignment.
pub fn in_assign(goal: AssignGoal, stack: Vec<Frame>) -> Reader
    ensures { reader_of result ≡ of_assign goal (stack_of stack.items) }
{
    inside(Goal::Assign(goal), stack)
}

/// The reader inside of a statement.
pub fn in_stmt(goal: StmtGoal, stack: Vec<Frame>) -> Reader
    ensures { reader_of result ≡ of_stmt goal (stack_of stack.items) }
{
    inside(Goal::Stmt(goal), stack)
}

/// The reader in an open instruction.
#[tactic(auto, unfolding(crate::specs::Views::reader_of, crate::specs::Views::of_place))]
pub fn in_instr(goal: InstrGoal, instr: OpenInstr) -> Reader
    ensures { reader_of result ≡ of_instr goal (instr_of instr) }
{
    Reader {
        fixed: Fixed::None,
        place: Place::Instr(goal, instr),
    }
}

/// The reader outside of instructions, expressions and statements.
#[tactic(auto, unfolding(crate::specs::Views::reader_of, crate::specs::Views::of_place))]
pub fn in_text(goal: TextGoal) -> Reader
    ensures { reader_of result ≡ of_text goal }
{
    Reader {
        fixed: Fixed::None,
        place: Place::Text(goal),
    }
}

/// The reader where fixed tokens come first.
#[tactic(auto, unfolding(crate::specs::Views::reader_of))]
pub fn behind(fixed: Fixed, place: Place) -> Reader
    ensures { reader_of result ≡ of_fixed fixed (of_place place) }
{
    Reader { fixed, place }
}
