ghost use Rattle.std.specs.Prelude.{◌≡◌, IfOk, IfErr, All};
ghost use Rattle.ix_extension.specs.Extensions.{view_extension};
ghost use Rattle.ix_extension.specs.WellFormed.{IsWellFormed};
ghost use Rattle.ix_behaviour.specs.Behaviours.{HasBehaviour};
ghost use Rattle.ix_graph.specs.Graphs.{IsValidGraph};
ghost use Rattle.ix_sheet.specs.Sheets.{IsValidSheet};
ghost use Rattle.ix_modes.specs.Modes.{IsScheduled};
ghost use Rattle.ix_cert.specs.Layout.{IsName};
ghost use Rattle.ix_standing.specs.Standing.{behaviours_of, AreBuilt};
ghost use Rattle.ix_schedules.specs.Scheduling.{AreNamed, IsRefusedBy, IsRefusedAs, IsFirstRefused};
ghost use Rattle.ix_design.specs.Building.{IsModuleBy, IsModuleOf, AreBuiltInTurn};

use crate::room::{MOST_CELLS, has_room};
use ix_behaviour::{Which, behaviour_laws};
use ix_bits::{List, Memory, Name};
use ix_flow::FlowErr;
use ix_graph::Graph;
use ix_graphs::graph_of;
use ix_modes::{Scheduled, schedule_of};
use ix_net::Net;
use ix_netgen::{generate, last_of};
use ix_plan::Plan;
use ix_schedules::{ScheduleErr, behaviours_in, is_block, name_of, refusal_by};
use ix_sheet::Sheet;
use ix_tree::Extension;
use netgen_laws::times_fit;
use std::alloc::Global;

/// A plan and a net for each behaviour of an extension: for the instructions, then for the always-blocks, in source order.
#[derive(Drop)]
pub struct Built {
    pub plans: List<Plan>,
    pub nets: List<Net>,
}

/// The plan of a behaviour, and its net.
#[derive(Drop)]
pub(crate) struct Module {
    pub plan: Plan,
    pub net: Net,
}

// The plan and the net of a behaviour, which may be a block, with its schedule. No cell is put where there may be no room for all.
fn module_by(
    alloc: Global,
    name: &Name,
    graph: Graph,
    sheet: &Sheet,
    block: bool,
    scheduled: Scheduled,
    room: usize,
) -> Result<Module, Memory>
    requires named { IsName name.now }
    requires graph { IsValidGraph graph }
    requires sheet { IsValidSheet sheet.now }
    requires scheduled { IsScheduled graph sheet.now block scheduled }
    ensures { IfOk result (IsModuleBy name.now graph sheet.now block) }
{
    times_fit();
    let _may_be_block = block;
    let Scheduled { mode, times, .. } = scheduled;
    if !has_room(&graph, room) {
        return Err(Memory);
    }
    let net = generate(alloc, name, &graph, times.as_slice(), sheet.shape)?;
    let last = last_of(times.as_slice(), sheet.shape.rd);
    Ok(Module {
        plan: Plan {
            mode,
            graph,
            times,
            last,
        },
        net,
    })
}

// The plan and the net of a behaviour with this graph, which may be a block, or why it has no schedule.
fn built_by(
    alloc: Global,
    name: Name,
    graph: Graph,
    sheet: &Sheet,
    block: bool,
    room: usize,
) -> Result<Module, ScheduleErr>
    requires named { IsName name }
    requires graph { IsValidGraph graph }
    requires sheet { IsValidSheet sheet.now }
    ensures built { IfOk result (IsModuleBy name graph sheet.now block) }
    ensures refused { IfErr result (IsRefusedBy name graph sheet.now block) }
{
    match schedule_of(alloc, &graph, sheet, block) {
        Ok(scheduled) => match module_by(alloc, &name, graph, sheet, block, scheduled, room) {
            Ok(module) => Ok(module),
            Err(_) => Err(ScheduleErr::Memory),
        },
        Err(error) => Err(refusal_by(alloc, name, &graph, sheet, block, error)),
    }
}

// The plan and the net of a behaviour, or why it has none: first its graph is made, and then its schedule.
fn built_at(
    alloc: Global,
    ext: &Extension,
    sheet: &Sheet,
    which: Which,
    room: usize,
) -> Result<Module, ScheduleErr>
    requires well_formed { IsWellFormed ext.now }
    requires named { AreNamed (view_extension ext.now) }
    requires sheet { IsValidSheet sheet.now }
    requires in_range { HasBehaviour (view_extension ext.now) which }
    ensures built { IfOk result (IsModuleOf (view_extension ext.now) sheet.now which) }
    ensures refused { IfErr result (λ e. IsRefusedAs (view_extension ext.now) sheet.now e which) }
{
    let name = Name::from_text(alloc, name_of(ext, which))?;
    match graph_of(alloc, ext, which) {
        Ok(graph) => built_by(alloc, name, graph, sheet, is_block(which), room),
        Err(FlowErr::TooManyOps) => Err(ScheduleErr::TooManyOps(name)),
        Err(FlowErr::Memory) => Err(ScheduleErr::Memory),
    }
}

// The plans and the nets of these behaviours, one after the other.
fn built_each(
    alloc: Global,
    ext: &Extension,
    sheet: &Sheet,
    list: &[Which],
) -> Result<Built, ScheduleErr>
    requires well_formed { IsWellFormed ext.now }
    requires named { AreNamed (view_extension ext.now) }
    requires sheet { IsValidSheet sheet.now }
    requires in_range { All (HasBehaviour (view_extension ext.now)) list.now }
    ensures built { IfOk result (λ b. AreBuiltInTurn (view_extension ext.now) sheet.now list.now b.plans b.nets) }
    ensures refused { IfErr result (IsFirstRefused (view_extension ext.now) sheet.now list.now) }
{
    let mut plans = List::new(alloc);
    let mut nets = List::new(alloc);
    let mut room = MOST_CELLS;
    for which in list {
        match built_at(alloc, ext, sheet, *which, room) {
            Ok(Module { plan, net }) => {
                room = room.saturating_sub(net.cells.len());
                plans.push(plan)?;
                nets.push(net)?;
            }
            Err(error) => return Err(error),
        }
    }
    Ok(Built { plans, nets })
}

/// The plan and the net of each behaviour of an extension on the core of a datasheet, the instructions first and then the always-blocks: its graph, its mode
/// by the rule, the chosen schedule in that mode and its last time, and a net that serves it by this plan. For each behaviour its graph is made and then its
/// schedule, before the next behaviour; the first that has too many operations, or no legal schedule in its widest windows, is the refusal.
/// The nets have at most 2,700,000 cells: where the look-ups of the next one may need more, the answer is want of memory, and none of it is made.
pub fn build(alloc: Global, ext: &Extension, sheet: &Sheet) -> Result<Built, ScheduleErr>
    requires well_formed { IsWellFormed ext.now }
    requires named { AreNamed (view_extension ext.now) }
    requires sheet { IsValidSheet sheet.now }
    ensures built { IfOk result (λ b. AreBuilt (view_extension ext.now) sheet.now b.plans b.nets) }
    ensures refused { IfErr result (IsFirstRefused (view_extension ext.now) sheet.now (behaviours_of (view_extension ext.now))) }
{
    let list = all_behaviours(alloc, ext)?;
    built_each(alloc, ext, sheet, list.as_slice())
}

// The behaviours of an extension.
fn all_behaviours(alloc: Global, ext: &Extension) -> Result<List<Which>, Memory>
    requires { IsWellFormed ext.now }
    ensures list { IfOk result (λ list. list ≡ behaviours_of (view_extension ext.now)) }
    ensures in_range { IfOk result (All (HasBehaviour (view_extension ext.now))) }
{
    behaviour_laws();
    behaviours_in(alloc, ext)
}
