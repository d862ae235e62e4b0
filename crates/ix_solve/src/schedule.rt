ghost use Rattle.std.specs.Prelude.{◌≡◌, ℕ, ◌≤◌, ◌<◌, length, map, take, IfOk, IfErr, All, slice_index, pos};
ghost use Rattle.ix_sheet.specs.Schedules.{IsValidProblem, IsSchedule, HasSchedule, IsChosen, cost};
ghost use Rattle.ix_sheet.specs.Bounds.{IsDualFlow, HasValue, IsContradiction};
ghost use Rattle.ix_problem.specs.Constraints.{AreConstraints, MeetWhereLegal};
ghost use Rattle.ix_residual.specs.Residuals.{AreAugmentations, bound_at, replayed};
ghost use Rattle.ix_residual.specs.Balances.{AreLongest, fresh, sum_of_needs};
ghost use Rattle.ix_solve.specs.Answers.{IsRefusal, AreOptimal, IsSolved, used, AreWords};

use crate::bounds::network_of;
use crate::cost::cost_of;
use crate::cycle::contradiction;
use crate::longest::least_times;
use crate::meet::{Met, meet};
use ix_bits::{List, Memory};
use ix_problem::constraints;
use ix_residual::{Path, Residual};
use ix_sheet::{Bound, Problem};
use std::alloc::{AllocError, Global};

/// A schedule of least cost, and what shows that none costs less.
#[derive(Debug, Drop)]
pub struct Solved {
    /// The time of each operation: the least times of the schedules of least cost.
    pub times: List<u8>,
    /// Bounds with positive amounts, a dual flow whose value is the cost.
    pub flow: List<(Bound, u64)>,
    /// The cost of the times.
    pub cost: u64,
}

/// A schedule with the augmentations that made its flow.
#[derive(Debug, Drop)]
pub struct Traced {
    pub solved: Solved,
    /// Bounds of the problem, which times meet exactly where they are a legal schedule.
    pub bounds: List<Bound>,
    /// Paths over these bounds. Each is a longest residual path at its turn, and the flow is what has moved along all.
    pub paths: List<Path>,
}

/// Why there is no answer.
#[derive(Debug, Drop)]
pub enum SolveErr {
    /// No schedule is legal: bounds of the problem that lead back to where they start, and whose numbers sum to more than 0.
    Cycle(List<Bound>),
    /// Memory was not found.
    Memory,
}

impl From<Memory> for SolveErr {
    ghost use Rattle.std.specs.Prelude.{◌≡◌};
    ghost use Rattle.ix_solve.specs.declared.schedule.SolveErr.TheVariants.{Memory as memory};

    ghost from_gives = { λ _ e. e ≡ memory };

    fn from(_want: Memory) -> SolveErr {
        SolveErr::Memory
    }
}

impl From<AllocError> for SolveErr {
    ghost use Rattle.std.specs.Prelude.{◌≡◌};
    ghost use Rattle.ix_solve.specs.declared.schedule.SolveErr.TheVariants.{Memory as memory};

    ghost from_gives = { λ _ e. e ≡ memory };

    fn from(_want: AllocError) -> SolveErr {
        SolveErr::Memory
    }
}

fn copy_of(alloc: Global, bound: &Bound) -> Result<Bound, Memory>
    ensures { IfOk result (λ copy. copy ≡ bound.now) }
{
    match bound {
        Bound::Early(op) => Ok(Bound::Early(*op)),
        Bound::Late(op) => Ok(Bound::Late(*op)),
        Bound::Dep(from, to) => Ok(Bound::Dep(*from, *to)),
        Bound::Chain(path) => Ok(Bound::Chain(List::from_slice(alloc, path.as_slice())?)),
    }
}

/// The bounds at these places.
pub fn cycle_of(alloc: Global, bounds: &[Bound], places: &[usize]) -> Result<List<Bound>, Memory>
    requires { All (λ k. k < length bounds.now) places.now }
    ensures { IfOk result (λ cycle. cycle ≡ map (bound_at bounds.now) places.now) }
{
    let mut cycle = List::new(alloc);
    'places: for place in places {
        let bound = copy_of(alloc, &bounds[*place])?;
        cycle.push(bound)?;
    }
    Ok(cycle)
}

// the bounds that carry an amount
fn flow_of(alloc: Global, bounds: &[Bound], amounts: &[u64]) -> Result<List<(Bound, u64)>, Memory>
    requires { length amounts.now ≡ length bounds.now }
    ensures flow { IfOk result (λ flow. flow ≡ used bounds.now amounts.now) }
    ensures small { IfOk result AreWords }
{
    let mut flow = List::new(alloc);
    'places: for place in 0..bounds.len() {
        let amount = amounts[place];
        if amount > 0 {
            let bound = copy_of(alloc, &bounds[place])?;
            flow.push((bound, amount))?;
        }
    }
    Ok(flow)
}

// the answer for the least optimal times over the bounds, the root's last
fn answer(
    alloc: Global,
    p: &Problem,
    bounds: &[Bound],
    mut times: Vec<u8>,
    amounts: &[u64],
) -> Result<Solved, Memory>
    requires valid { IsValidProblem p.now }
    requires constraints { AreConstraints p.now bounds.now }
    requires optimal { AreOptimal p.now bounds.now times.items amounts.now }
    ensures solved { IfOk result (IsSolved p.now) }
    ensures flow { IfOk result (λ solved. solved.flow ≡ used bounds.now amounts.now) }
    ensures small { IfOk result (λ solved. AreWords solved.flow) }
{
    times.truncate(p.ops.len());
    let cost = cost_of(p, times.as_slice());
    let flow = flow_of(alloc, bounds, amounts)?;
    Ok(Solved {
        times: List::from_vec(times),
        flow,
        cost,
    })
}

/// The schedule of least cost, of such schedules the one whose times are least, with a flow that shows that none costs less and
/// the augmentations that make this flow, each along a longest residual path; or, where there is no legal schedule, a
/// contradiction among the bounds.
pub fn solve_traced(alloc: Global, p: &Problem) -> Result<Traced, SolveErr>
    requires { IsValidProblem p.now }
    ensures times { IfOk result (λ traced. IsSchedule p.now traced.solved.times × IsChosen p.now (slice_index traced.solved.times)) }
    ensures cost { IfOk result (λ traced. traced.solved.cost ≡ cost p.now (slice_index traced.solved.times)) }
    ensures flow { IfOk result (λ traced. IsDualFlow p.now traced.solved.flow × HasValue p.now traced.solved.flow traced.solved.cost) }
    ensures small { IfOk result (λ traced. AreWords traced.solved.flow) }
    ensures refused { IfErr result (IsRefusal p.now) }
    ensures exactly { IfOk result (λ _. HasSchedule p.now) }
    ensures bounds { IfOk result (λ traced. AreConstraints p.now traced.bounds × MeetWhereLegal p.now traced.bounds) }
    ensures turns { IfOk result (λ traced. AreAugmentations (fresh p.now traced.bounds) traced.paths) }
    ensures met { IfOk result (λ traced. All (λ x. x ≡ pos 0) (replayed (fresh p.now traced.bounds) traced.paths).left) }
    ensures replay { IfOk result (λ traced. traced.solved.flow ≡ used traced.bounds (replayed (fresh p.now traced.bounds) traced.paths).amounts) }
    ensures longest { IfOk result (λ traced. AreLongest p.now (fresh p.now traced.bounds) traced.paths) }
    ensures few { IfOk result (λ traced. length traced.paths ≤ sum_of_needs p.now) }
{
    let bounds = constraints(alloc, p)?;
    let mut network = network_of(alloc, p, bounds.as_slice())?;
    if let Some(places) = contradiction(alloc, &network)? {
        return Err(SolveErr::Cycle(cycle_of(alloc, bounds.as_slice(), places.as_slice())?));
    }
    let Met { residual, paths } = meet(alloc, p, bounds, &mut network)?;
    let times = least_times(alloc, &network)?;
    let Residual {
        bounds,
        amounts,
        left: _,
    } = residual;
    let solved = answer(alloc, p, bounds.as_slice(), times, amounts.as_slice())?;
    Ok(Traced {
        solved,
        bounds,
        paths,
    })
}

/// As `solve_traced`, without the augmentations.
pub fn solve(alloc: Global, p: &Problem) -> Result<Solved, SolveErr>
    requires { IsValidProblem p.now }
    ensures times { IfOk result (λ solved. IsSchedule p.now solved.times × IsChosen p.now (slice_index solved.times)) }
    ensures cost { IfOk result (λ solved. solved.cost ≡ cost p.now (slice_index solved.times)) }
    ensures flow { IfOk result (λ solved. IsDualFlow p.now solved.flow × HasValue p.now solved.flow solved.cost) }
    ensures small { IfOk result (λ solved. AreWords solved.flow) }
    ensures refused { IfErr result (IsRefusal p.now) }
    ensures exactly { IfOk result (λ _. HasSchedule p.now) }
{
    let Traced {
        solved,
        bounds: _,
        paths: _,
    } = solve_traced(alloc, p)?;
    Ok(solved)
}
