ghost use Rattle.std.specs.Prelude.{IfOk, IfErr, All};
ghost use Rattle.ix_extension.specs.Extensions.{view_extension};
ghost use Rattle.ix_extension.specs.WellFormed.{IsWellFormed};
ghost use Rattle.ix_behaviour.specs.Behaviours.{HasBehaviour};
ghost use Rattle.ix_graph.specs.Graphs.{IsValidGraph};
ghost use Rattle.ix_sheet.specs.Sheets.{IsValidSheet};
ghost use Rattle.ix_modes.specs.Modes.{IsRefusal};
ghost use Rattle.ix_cert.specs.Layout.{IsName};
ghost use Rattle.ix_schedules.specs.Scheduling.{behaviours_of, AreNamed, IsReportedBy, IsRefusedBy, IsReported, IsRefusedAs, AreReported, IsFirstRefused, IsReport};

use crate::behaviours::{behaviours_in, is_block, name_of};
use ix_behaviour::{Which, behaviour_laws};
use ix_bits::{List, Memory, Name};
use ix_cert::{Report, ReportBlock};
use ix_flow::FlowErr;
use ix_graph::Graph;
use ix_graphs::graph_of;
use ix_modes::{ModeErr, schedule_of};
use ix_reports::{scheduled_block, unscheduled_block, version};
use ix_sheet::Sheet;
use ix_tree::Extension;
use std::alloc::Global;

/// Why the behaviours of an extension are not all scheduled: the first that is not, the instructions before the always-blocks.
#[derive(Drop)]
pub enum ScheduleErr {
    /// The behaviour of this name has more than 256 operations.
    TooManyOps(Name),
    /// The behaviour has no legal schedule in the widest windows that it may have, which a report says of it with a cycle.
    NoSchedule(ReportBlock),
    Memory,
}

impl From<Memory> for ScheduleErr {
    ghost use Rattle.std.specs.Prelude.{◌≡◌};
    ghost use Rattle.ix_schedules.specs.declared.scheduling.ScheduleErr.TheVariants.{Memory as memory};

    ghost from_gives = { λ _ e. e ≡ memory };

    fn from(_want: Memory) -> ScheduleErr {
        ScheduleErr::Memory
    }
}

/// The refusal of a behaviour with this graph, which may be a block and has no legal schedule in the widest windows.
pub fn refusal_by(
    alloc: Global,
    name: Name,
    graph: &Graph,
    sheet: &Sheet,
    block: bool,
    error: ModeErr,
) -> ScheduleErr
    requires named { IsName name }
    requires graph { IsValidGraph graph.now }
    requires sheet { IsValidSheet sheet.now }
    requires refused { IsRefusal graph.now sheet.now block error }
    ensures { IsRefusedBy name graph.now sheet.now block result }
{
    match error {
        ModeErr::NoSchedule(problem, cycle) => {
            match unscheduled_block(alloc, name, graph, sheet, block, problem, cycle) {
                Ok(said) => ScheduleErr::NoSchedule(said),
                Err(_) => ScheduleErr::Memory,
            }
        }
        ModeErr::Memory => ScheduleErr::Memory,
    }
}

// What a report says of a behaviour with this graph, or why it has no schedule.
fn block_by(
    alloc: Global,
    name: Name,
    graph: &Graph,
    sheet: &Sheet,
    block: bool,
) -> Result<ReportBlock, ScheduleErr>
    requires named { IsName name }
    requires graph { IsValidGraph graph.now }
    requires sheet { IsValidSheet sheet.now }
    ensures reported { IfOk result (IsReportedBy name graph.now sheet.now block) }
    ensures refused { IfErr result (IsRefusedBy name graph.now sheet.now block) }
{
    match schedule_of(alloc, graph, sheet, block) {
        Ok(scheduled) => {
            match scheduled_block(alloc, name, graph, sheet, block, scheduled) {
                Ok(said) => Ok(said),
                Err(_) => Err(ScheduleErr::Memory),
            }
        }
        Err(error) => Err(refusal_by(alloc, name, graph, sheet, block, error)),
    }
}

// What a report says of a behaviour, or why it is not scheduled: first its graph is made, and then its schedule.
fn block_at(
    alloc: Global,
    ext: &Extension,
    sheet: &Sheet,
    which: Which,
) -> Result<ReportBlock, ScheduleErr>
    requires well_formed { IsWellFormed ext.now }
    requires named { AreNamed (view_extension ext.now) }
    requires sheet { IsValidSheet sheet.now }
    requires in_range { HasBehaviour (view_extension ext.now) which }
    ensures reported { IfOk result (IsReported (view_extension ext.now) sheet.now which) }
    ensures refused { IfErr result (λ e. IsRefusedAs (view_extension ext.now) sheet.now e which) }
{
    let name = Name::from_text(alloc, name_of(ext, which))?;
    match graph_of(alloc, ext, which) {
        Ok(graph) => block_by(alloc, name, &graph, sheet, is_block(which)),
        Err(FlowErr::TooManyOps) => Err(ScheduleErr::TooManyOps(name)),
        Err(FlowErr::Memory) => Err(ScheduleErr::Memory),
    }
}

// What a report says of these behaviours, one after the other.
fn blocks_of(
    alloc: Global,
    ext: &Extension,
    sheet: &Sheet,
    list: &[Which],
) -> Result<List<ReportBlock>, ScheduleErr>
    requires well_formed { IsWellFormed ext.now }
    requires named { AreNamed (view_extension ext.now) }
    requires sheet { IsValidSheet sheet.now }
    requires in_range { All (HasBehaviour (view_extension ext.now)) list.now }
    ensures reported { IfOk result (AreReported (view_extension ext.now) sheet.now list.now) }
    ensures refused { IfErr result (IsFirstRefused (view_extension ext.now) sheet.now list.now) }
{
    let mut blocks = List::new(alloc);
    for which in list {
        match block_at(alloc, ext, sheet, *which) {
            Ok(block) => {
                if blocks.push(block).is_err() {
                    return Err(ScheduleErr::Memory);
                }
            }
            Err(error) => return Err(error),
        }
    }
    Ok(blocks)
}

/// What a report says of the behaviours of an extension on the core of a datasheet, the instructions first and then the always-blocks: the mode by the
/// rule, and the chosen schedule in it with its cost and the flow that shows it. For each behaviour its graph is made and then its schedule, before
/// the next behaviour; the first that has too many operations, or no legal schedule in its widest windows, is the refusal.
pub fn schedule(alloc: Global, ext: &Extension, sheet: &Sheet) -> Result<Report, ScheduleErr>
    requires well_formed { IsWellFormed ext.now }
    requires named { AreNamed (view_extension ext.now) }
    requires sheet { IsValidSheet sheet.now }
    ensures report { IfOk result (IsReport (view_extension ext.now) sheet.now) }
    ensures refused { IfErr result (IsFirstRefused (view_extension ext.now) sheet.now (behaviours_of (view_extension ext.now))) }
{
    behaviour_laws();
    let list = behaviours_in(alloc, ext)?;
    match blocks_of(alloc, ext, sheet, list.as_slice()) {
        Ok(blocks) => Ok(Report {
            version: version(sheet),
            period: sheet.period,
            blocks,
        }),
        Err(error) => Err(error),
    }
}
