ghost use Rattle.std.specs.Prelude.{IfOk};
ghost use Rattle.ix_sheet.specs.Schedules.{IsWeighed, IsValidProblem};

use ix_bits::List;
use ix_sheet::{Bound, Node, Problem};
use ix_solve::{Residual, SolveErr, solve, solve_traced};
use std::alloc::{AllocError, Global};
use std::test::Fail;

fn node(delay: u32, early: u8, late: u8) -> Node
    ensures { IsWeighed result }
{
    Node {
        delay,
        latency: 0,
        weight: 1,
        early,
        late,
    }
}

// An addition of two registers: operands, sum, cast and write.
fn addition(alloc: Global) -> Result<Problem, AllocError>
    ensures { IfOk result IsValidProblem }
{
    let ops = vec![in alloc;
        node(0, 1, 2),
        node(0, 1, 2),
        node(300, 1, 64),
        node(0, 1, 64),
        node(0, 2, 4),
    ]?;
    let edges = vec![in alloc; (0, 2), (1, 2), (2, 3), (3, 4)]?;
    Ok(Problem {
        ops: List::from_vec(ops),
        edges: List::from_vec(edges),
        period: 1000,
    })
}

// One operation that is too slow for the period.
fn too_slow(alloc: Global) -> Result<Problem, AllocError>
    ensures { IfOk result IsValidProblem }
{
    let ops = vec![in alloc; node(1001, 1, 64)]?;
    Ok(Problem {
        ops: List::from_vec(ops),
        edges: List::new(alloc),
        period: 1000,
    })
}

#[test]
fn schedule_of_an_addition(rt: HostRuntime) -> Result<(), Fail> {
    let problem = addition(rt.alloc())?;
    let Ok(solved) = solve(rt.alloc(), &problem) else {
        return Err(Fail::from("an addition has a schedule"));
    };
    assert_eq!(rt; solved.times.as_slice(), [1, 1, 1, 1, 2].as_slice());
    assert_eq!(rt; solved.cost, 7);
    let mut value: u64 = 0;
    for (bound, amount) in solved.flow.as_slice() {
        match bound {
            Bound::Early(4) => value = value.saturating_add(amount.saturating_mul(2)),
            Bound::Early(_) => value = value.saturating_add(*amount),
            Bound::Dep(_, _) => {}
            Bound::Late(_) | Bound::Chain(_) => return Err(Fail::from("not tight")),
        }
    }
    assert_eq!(rt; value, 7);
    Ok(())
}

#[test]
fn augmentations_of_an_addition(rt: HostRuntime) -> Result<(), Fail> {
    let problem = addition(rt.alloc())?;
    let Ok(traced) = solve_traced(rt.alloc(), &problem) else {
        return Err(Fail::from("an addition has a schedule"));
    };
    let count = traced.paths.len();
    assert!(rt; 3 <= count && count <= 5);
    for path in traced.paths.as_slice() {
        assert!(rt; !path.steps.is_empty());
    }
    Ok(())
}

#[test]
fn balances_of_an_addition(rt: HostRuntime) -> Result<(), Fail> {
    let problem = addition(rt.alloc())?;
    let Ok(residual) = Residual::new(rt.alloc(), &problem, List::new(rt.alloc())) else {
        return Err(Fail::from("memory"));
    };
    assert_eq!(rt; residual.left.as_slice(), [0, 0, 2, 1, 2, -5].as_slice());
    Ok(())
}

#[test]
fn one_slow_operation(rt: HostRuntime) -> Result<(), Fail> {
    let problem = too_slow(rt.alloc())?;
    match solve(rt.alloc(), &problem) {
        Err(SolveErr::Cycle(cycle)) => match cycle.as_slice() {
            [Bound::Chain(path)] => assert_eq!(rt; path.as_slice(), [0].as_slice()),
            _ => return Err(Fail::from("not the one chain")),
        },
        _ => return Err(Fail::from("no cycle")),
    }
    Ok(())
}
