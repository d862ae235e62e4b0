ghost use Rattle.std.specs.Prelude.{◌≡◌, map, IfOk};
ghost use Rattle.ix_graph.specs.Graphs.{IsValidGraph};
ghost use Rattle.ix_sheet.specs.Sheets.{IsValidSheet};
ghost use Rattle.ix_modes.specs.Modes.{IsScheduled, IsUnschedulable};
ghost use Rattle.ix_cert.specs.Layout.{IsName};
ghost use Rattle.ix_reports.specs.Blocks.{kind_text, version_by, SaysSchedule, SaysNone, IsSound};

use ix_bits::{List, Memory, Name};
use ix_cert::ReportBlock;
use ix_graph::{Graph, Op, kind_name};
use ix_modes::Scheduled;
use ix_sheet::{Bound, Problem, Sheet, problem_law};
use std::alloc::Global;

/// The version of the reports by a datasheet: 2 where it weighs lifetimes by width, so that operations have weights, else 1.
pub fn version(sheet: &Sheet) -> u8
    ensures { result ≡ version_by sheet.now.weighted }
{
    if sheet.weighted { 2 } else { 1 }
}

// The printed kinds of operations.
fn kinds_of(alloc: Global, ops: &[Op]) -> Result<List<Name>, Memory>
    ensures { IfOk result (λ kinds. kinds ≡ map kind_text ops.now) }
{
    let mut kinds = List::new(alloc);
    for op in ops {
        kinds.push(kind_name(alloc, &op.kind)?)?;
    }
    Ok(kinds)
}

/// What a report says of a behaviour with a schedule, which may be a block: it has the form of a report with the datasheet's period, and its
/// check finds no fault in it.
pub fn scheduled_block(
    alloc: Global,
    name: Name,
    graph: &Graph,
    sheet: &Sheet,
    block: bool,
    scheduled: Scheduled,
) -> Result<ReportBlock, Memory>
    requires named { IsName name }
    requires graph { IsValidGraph graph.now }
    requires sheet { IsValidSheet sheet.now }
    requires scheduled { IsScheduled graph.now sheet.now block scheduled }
    ensures says { IfOk result (SaysSchedule name graph.now scheduled) }
    ensures sound { IfOk result (IsSound sheet.now.weighted sheet.now.period) }
{
    problem_law();
    let kinds = kinds_of(alloc, graph.ops.as_slice())?;
    let Scheduled {
        mode,
        problem,
        times,
        flow,
        cost,
    } = scheduled;
    Ok(ReportBlock {
        name,
        mode: Some(mode),
        kinds,
        problem,
        times,
        cost,
        flow,
        cycle: List::new(alloc),
    })
}

/// What a report says of a behaviour without a schedule, which may be a block: it has the form of a report with the datasheet's period, and its
/// check finds no fault in it.
pub fn unscheduled_block(
    alloc: Global,
    name: Name,
    graph: &Graph,
    sheet: &Sheet,
    block: bool,
    problem: Problem,
    cycle: List<Bound>,
) -> Result<ReportBlock, Memory>
    requires named { IsName name }
    requires graph { IsValidGraph graph.now }
    requires sheet { IsValidSheet sheet.now }
    requires unschedulable { IsUnschedulable graph.now sheet.now block problem cycle }
    ensures says { IfOk result (SaysNone name graph.now problem cycle) }
    ensures sound { IfOk result (IsSound sheet.now.weighted sheet.now.period) }
{
    problem_law();
    let kinds = kinds_of(alloc, graph.ops.as_slice())?;
    Ok(ReportBlock {
        name,
        mode: None,
        kinds,
        problem,
        times: List::new(alloc),
        cost: 0,
        flow: List::new(alloc),
        cycle,
    })
}
