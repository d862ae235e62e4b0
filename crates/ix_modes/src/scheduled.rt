ghost use Rattle.std.specs.Prelude.{◌≡◌, Bool, true, false, IfOk, IfErr, Contains};
ghost use Rattle.ix_graph.specs.Graphs.{IsValidGraph};
ghost use Rattle.ix_sheet.specs.Sheets.{IsValidSheet};
ghost use Rattle.ix_sheet.specs.Behaviours.{problem_of as specified_problem_of, IsSpawning, IsModeOf};
ghost use Rattle.ix_sheet.specs.Schedules.{HasSchedule};
ghost use Rattle.ix_modes.specs.Modes.{IsScheduled, IsScheduledIn, FitsWidest, HasNoneIn, IsRefusal};

use ix_bits::{List, Memory};
use ix_graph::{Graph, Mode};
use ix_problem::problem_of;
use ix_sheet::{Bound, Problem, Sheet, problem_law};
use ix_solve::{SolveErr, Solved, solve};
use std::alloc::Global;

/// A behaviour's mode, and the schedule in it.
#[derive(Drop)]
pub struct Scheduled {
    pub mode: Mode,
    /// The constraints by the behaviour's graph, the datasheet and the mode.
    pub problem: Problem,
    /// The time of each operation, from 0 to 64: the least times of the schedules of least cost.
    pub times: List<u8>,
    /// Bounds with positive amounts, a dual flow whose value is the cost.
    pub flow: List<(Bound, u64)>,
    /// The cost of the times.
    pub cost: u64,
}

/// Why a behaviour has no schedule.
#[derive(Drop)]
pub enum ModeErr {
    /// No legal schedule is in the widest windows that it may have: its constraints there, and bounds that contradict each other.
    NoSchedule(Problem, List<Bound>),
    Memory,
}

impl From<Memory> for ModeErr {
    ghost use Rattle.std.specs.Prelude.{◌≡◌};
    ghost use Rattle.ix_modes.specs.declared.scheduled.ModeErr.TheVariants.{Memory as memory};

    ghost from_gives = { λ _ e. e ≡ memory };

    fn from(_want: Memory) -> ModeErr {
        ModeErr::Memory
    }
}

/// Whether a write of a spawned body is among the operations.
pub fn is_spawning(graph: &Graph) -> bool
    ensures yes { result ≡ true → IsSpawning graph.now }
    ensures no { result ≡ false → IsSpawning graph.now → ⊥ }
{
    graph.spawned.as_slice().contains(&true)
}

// The schedule of a behaviour in a mode.
fn in_mode(alloc: Global, graph: &Graph, sheet: &Sheet, mode: Mode) -> Result<Scheduled, ModeErr>
    requires graph { IsValidGraph graph.now }
    requires sheet { IsValidSheet sheet.now }
    ensures scheduled { IfOk result (IsScheduledIn graph.now sheet.now mode) }
    ensures exists { IfOk result (λ _. HasSchedule (specified_problem_of graph.now sheet.now mode)) }
    ensures refused { IfErr result (HasNoneIn graph.now sheet.now mode) }
{
    problem_law();
    let problem = problem_of(alloc, graph, sheet, mode)?;
    match solve(alloc, &problem) {
        Ok(Solved { times, flow, cost }) => Ok(Scheduled {
            mode,
            problem,
            times,
            flow,
            cost,
        }),
        Err(SolveErr::Cycle(cycle)) => Err(ModeErr::NoSchedule(problem, cycle)),
        Err(SolveErr::Memory) => Err(ModeErr::Memory),
    }
}

// The schedule of an instruction that writes nothing later: in the pipeline where that can be, else as one that waits in the last stage.
fn in_order(alloc: Global, graph: &Graph, sheet: &Sheet) -> Result<Scheduled, ModeErr>
    requires graph { IsValidGraph graph.now }
    requires sheet { IsValidSheet sheet.now }
    requires native { IsSpawning graph.now → ⊥ }
    ensures scheduled { IfOk result (IsScheduled graph.now sheet.now false) }
    ensures widest { IfOk result (λ _. FitsWidest graph.now sheet.now false) }
    ensures refused { IfErr result (IsRefusal graph.now sheet.now false) }
{
    match in_mode(alloc, graph, sheet, Mode::InPipeline) {
        Err(ModeErr::NoSchedule(_, _)) => in_mode(alloc, graph, sheet, Mode::Tight),
        answer => answer,
    }
}

/// The mode of a behaviour, which may be a block, and its schedule in it. `NoSchedule` is answered exactly where no legal schedule is in
/// the widest windows that the behaviour may have.
pub fn schedule_of(
    alloc: Global,
    graph: &Graph,
    sheet: &Sheet,
    block: bool,
) -> Result<Scheduled, ModeErr>
    requires graph { IsValidGraph graph.now }
    requires sheet { IsValidSheet sheet.now }
    ensures scheduled { IfOk result (IsScheduled graph.now sheet.now block) }
    ensures widest { IfOk result (λ _. FitsWidest graph.now sheet.now block) }
    ensures refused { IfErr result (IsRefusal graph.now sheet.now block) }
{
    if block {
        in_mode(alloc, graph, sheet, Mode::Always)
    } else if is_spawning(graph) {
        in_mode(alloc, graph, sheet, Mode::Decoupled)
    } else {
        in_order(alloc, graph, sheet)
    }
}
