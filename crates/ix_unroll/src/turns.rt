ghost use Rattle.std.specs.Prelude.{◌≡◌, ℤ, IfOk, IfErr};
ghost use Rattle.ix_tree.specs.View.{view};
ghost use Rattle.ix_tree.specs.Rows.{view_whole};
ghost use Rattle.ix_tree.specs.Unrolling.{Turns, these, breaks, Broken, bound, turns, assigned, on_value, on_test, test_value, next_value, turns_from, started, judged, most_turns};
ghost use Rattle.ix_unroll.specs.Scopes.{bindings};
ghost use Rattle.ix_unroll.specs.Values.{seen_option};
ghost use Rattle.ix_unroll.specs.Turning.{head_of, StepIs, ErrIs};

use crate::UnrollErr;
use crate::assigned::{is_variable, touches};
use crate::room::taken;
use crate::scope::Scope;
use crate::size::{size_of_judging, size_of_turn};
use crate::value::{head_value, holds, in_int, stepped};
use ix_bits::Value;
use ix_tree::{Loop, Span};
use std::alloc::Global;

/// The greatest count of a loop's turns.
const MOST_TURNS: usize = 128;

/// What comes of a value of a loop's variable.
#[derive(Clone, Copy)]
enum Step {
    /// It leaves the type `int`, or the test has no type.
    Bound,
    /// The test fails.
    End,
    /// A turn with this value.
    Turn(i32),
}

// What comes of a value of the loop's variable.
fn tried(scope: &Scope, head: &Loop, value: Option<Value>) -> Step
    ensures { (rest : ℤ → Turns) → StepIs result rest (on_value (seen_option value) (λ v. on_test (test_value (bindings scope.now) (head_of head.now) v) (rest v))) }
{
    let v = match value {
        None => return Step::Bound,
        Some(value) => match in_int(value) {
            None => return Step::Bound,
            Some(v) => v,
        },
    };
    match head_value(&Scope::Inside(head.name.as_str(), v, scope), &head.test) {
        None => Step::Bound,
        Some(test) => {
            if holds(test) {
                Step::Turn(v)
            } else {
                Step::End
            }
        }
    }
}

// The value of the loop's variable after a turn.
fn next(scope: &Scope, head: &Loop, v: i32) -> Option<Value>
    ensures { seen_option result ≡ next_value (bindings scope.now) (head_of head.now) v }
{
    let inside = Scope::Inside(head.name.as_str(), v, scope);
    stepped(head.last.op, v, head_value(&inside, &head.last.value))
}

// The values of the loop's variable, from the first on.
fn turns(
    alloc: Global,
    scope: &Scope,
    steps: &mut usize,
    span: Span,
    head: &Loop,
    first: Value,
) -> Result<Vec<i32>, UnrollErr>
    ensures values { IfOk result (λ vs. turns_from most_turns (bindings scope.now) (head_of head.now) (seen_option (Some first)) ≡ these vs.items) }
    ensures broken { IfErr result (λ e. ErrIs e span (turns_from most_turns (bindings scope.now) (head_of head.now) (seen_option (Some first)))) }
{
    let size = size_of_turn(head);
    let mut values = Vec::new(alloc);
    let mut value = Some(first);
    for _ in 0..MOST_TURNS {
        taken(steps, size)?;
        match tried(scope, head, value) {
            Step::Bound => return Err(UnrollErr::Bound { span }),
            Step::End => return Ok(values),
            Step::Turn(v) => {
                values.push(v)?;
                value = next(scope, head, v);
            }
        }
    }
    match tried(scope, head, value) {
        Step::Bound => Err(UnrollErr::Bound { span }),
        Step::End => Ok(values),
        Step::Turn(_) => Err(UnrollErr::Turns { span }),
    }
}

/// The values of the loop's variable, one for each turn, or the rule that the loop breaks. `steps` is the count of the nodes
/// that may still be looked at.
pub fn judged(
    alloc: Global,
    scope: &Scope,
    steps: &mut usize,
    span: Span,
    head: &Loop,
) -> Result<Vec<i32>, UnrollErr>
    ensures values { IfOk result (λ vs. judged (bindings scope.now) (head_of head.now) (view_whole head.now.body) ≡ these vs.items) }
    ensures broken { IfErr result (λ e. ErrIs e span (judged (bindings scope.now) (head_of head.now) (view_whole head.now.body))) }
{
    let name = head.name.as_str();
    if !is_variable(name, &head.last.target.kind) {
        return Err(UnrollErr::Bound { span });
    }
    taken(steps, size_of_judging(head))?;
    match head_value(scope, &head.start) {
        None => Err(UnrollErr::Bound { span }),
        Some(first) => started(alloc, scope, steps, span, head, first),
    }
}

// The same, from the value of the start on.
fn started(
    alloc: Global,
    scope: &Scope,
    steps: &mut usize,
    span: Span,
    head: &Loop,
    first: Value,
) -> Result<Vec<i32>, UnrollErr>
    ensures values { IfOk result (λ vs. started (bindings scope.now) (head_of head.now) (view_whole head.now.body) (seen_option (Some first)) ≡ these vs.items) }
    ensures broken { IfErr result (λ e. ErrIs e span (started (bindings scope.now) (head_of head.now) (view_whole head.now.body) (seen_option (Some first)))) }
{
    match in_int(first) {
        None => return Err(UnrollErr::Bound { span }),
        Some(v) => {
            if next(scope, head, v).is_none() {
                return Err(UnrollErr::Bound { span });
            }
        }
    }
    let values = turns(alloc, scope, steps, span, head, first)?;
    if touches(head.name.as_str(), &head.body) {
        Err(UnrollErr::Assigned { span })
    } else {
        Ok(values)
    }
}
