//! The least period of each behaviour, with the reports of its schedules and of why there is none with less.

ghost use Rattle.std.specs.Prelude.{◌≡◌, ◌≤◌, length, IfOk, IfErr, All, map};
ghost use Rattle.ix_extension.specs.Extensions.{view_extension};
ghost use Rattle.ix_extension.specs.WellFormed.{IsWellFormed};
ghost use Rattle.ix_behaviour.specs.Behaviours.{HasBehaviour};
ghost use Rattle.ix_graph.specs.Graphs.{IsValidGraph};
ghost use Rattle.ix_sheet.specs.Sheets.{IsValidSheet};
ghost use Rattle.ix_cert.specs.Layout.{IsName};
ghost use Rattle.ix_modes.specs.Modes.{IsUnschedulable};
ghost use Rattle.ix_sweep.specs.Periods.{at_period as specified_at_period, refuted_at, IsEntry, IsPeriodOf, IsBelow};
ghost use Rattle.ix_schedules.specs.Scheduling.{AreNamed, behaviours_of};
ghost use Rattle.ix_sweeps.specs.Sweeping.{IsReportAt, AreReportsAt, IsRefutationAt, IsRefuted, IsSweptBy, IsSwept, AreSwept, IsLargeAs, IsFirstLarge, period_of};

use ix_behaviour::{Which, behaviour_laws};
use ix_bits::{List, Memory, Name};
use ix_cert::Report;
use ix_flow::FlowErr;
use ix_graph::Graph;
use ix_graphs::graph_of;
use ix_reports::{scheduled_block, unscheduled_block};
use ix_schedules::{behaviours_in, is_block, name_of, report_alone, too_many_text};
use ix_sheet::{Bound, Problem, Sheet};
use ix_sweep::{Entry, Least, at_period, least};
use ix_tree::Extension;
use std::alloc::Global;

/// What a sweep says of a behaviour.
#[derive(Drop)]
pub struct Swept {
    pub name: Name,
    /// The least period with which it has a legal schedule in its widest windows, 1 to 1,000,000, or None where it has none with any.
    pub period: Option<u32>,
    /// The reports of the behaviour alone with this period, twice and four times as much, without those over 1,000,000.
    pub reports: List<Report>,
    /// The report with a period of one less, or of 1,000,000 where there is no least period: a cycle shows that there is no schedule. None where
    /// the least period is 1.
    pub below: Option<Report>,
}

/// Why the behaviours of an extension are not all swept.
#[derive(Drop)]
pub enum SweepErr {
    /// The line `refused Extension TooManyOps` with the name of the first behaviour of more than 256 operations.
    TooManyOps(List<u8>),
    Memory,
}

impl From<Memory> for SweepErr {
    ghost use Rattle.std.specs.Prelude.{◌≡◌};
    ghost use Rattle.ix_sweeps.specs.declared.sweeping.SweepErr.TheVariants.{Memory as memory};

    ghost from_gives = { λ _ e. e ≡ memory };

    fn from(_want: Memory) -> SweepErr {
        SweepErr::Memory
    }
}

// The report of a behaviour's schedule with a period.
fn report_at(
    alloc: Global,
    name: &str,
    graph: &Graph,
    sheet: &Sheet,
    block: bool,
    entry: Entry,
) -> Result<Report, Memory>
    requires named { IsName name.now }
    requires short { length name.now ≤ 80 }
    requires graph { IsValidGraph graph.now }
    requires sheet { IsValidSheet sheet.now }
    requires entry { IsEntry graph.now sheet.now block entry }
    ensures { IfOk result (IsReportAt name.now graph.now sheet.now block entry.period) }
{
    let name = Name::from_text(alloc, name)?;
    let Entry { period, scheduled } = entry;
    let sheet = at_period(sheet, period);
    let said = scheduled_block(alloc, name, graph, &sheet, block, scheduled)?;
    report_alone(alloc, &sheet, said)
}

// The reports of a behaviour's schedules, one after the other.
fn reports_of(
    alloc: Global,
    name: &str,
    graph: &Graph,
    sheet: &Sheet,
    block: bool,
    entries: List<Entry>,
) -> Result<List<Report>, Memory>
    requires named { IsName name.now }
    requires short { length name.now ≤ 80 }
    requires graph { IsValidGraph graph.now }
    requires sheet { IsValidSheet sheet.now }
    requires entries { All (IsEntry graph.now sheet.now block) entries }
    ensures { IfOk result (AreReportsAt name.now graph.now sheet.now block (map period_of entries)) }
{
    let mut reports = List::new(alloc);
    for entry in entries.into_vec() {
        let report = report_at(alloc, name, graph, sheet, block, entry)?;
        reports.push(report)?;
    }
    Ok(reports)
}

// The report of why a behaviour has no schedule with a period.
fn refutation_at(
    alloc: Global,
    name: &str,
    graph: &Graph,
    sheet: &Sheet,
    block: bool,
    period: u32,
    below: (Problem, List<Bound>),
) -> Result<Report, Memory>
    requires named { IsName name.now }
    requires short { length name.now ≤ 80 }
    requires graph { IsValidGraph graph.now }
    requires sheet { IsValidSheet sheet.now }
    requires some { 1 ≤ period }
    requires most { period ≤ 1000000 }
    requires none { IsUnschedulable graph.now (specified_at_period sheet.now period) block below.0 below.1 }
    ensures { IfOk result (IsRefutationAt name.now graph.now sheet.now block period) }
{
    let name = Name::from_text(alloc, name)?;
    let (problem, cycle) = below;
    let sheet = at_period(sheet, period);
    let said = unscheduled_block(alloc, name, graph, &sheet, block, problem, cycle)?;
    report_alone(alloc, &sheet, said)
}

// The period that is refuted: one less than a least period above 1, and the greatest where there is no least one.
fn refuted(period: Option<u32>) -> Option<u32>
    ensures { result ≡ refuted_at period }
{
    match period {
        Some(period) if period > 1 => Some(period - 1),
        Some(_) => None,
        None => Some(1_000_000),
    }
}

// The report of why a behaviour has no schedule with less than its least period.
fn below_of(
    alloc: Global,
    name: &str,
    graph: &Graph,
    sheet: &Sheet,
    block: bool,
    period: Option<u32>,
    below: Option<(Problem, List<Bound>)>,
) -> Result<Option<Report>, Memory>
    requires named { IsName name.now }
    requires short { length name.now ≤ 80 }
    requires graph { IsValidGraph graph.now }
    requires sheet { IsValidSheet sheet.now }
    requires period { IsPeriodOf graph.now sheet.now block period }
    requires below { IsBelow graph.now sheet.now block (refuted_at period) below }
    ensures { IfOk result (IsRefuted name.now graph.now sheet.now block (refuted_at period)) }
{
    let Some(period) = refuted(period) else {
        return Ok(None);
    };
    match below {
        Some(below) => {
            let report = refutation_at(alloc, name, graph, sheet, block, period, below)?;
            Ok(Some(report))
        }
        None => unreachable!(),
    }
}

/// The least period of a behaviour with this graph, which may be a block, and the reports that show it. The period of the datasheet itself
/// changes nothing.
pub fn sweep_graph(
    alloc: Global,
    name: Name,
    graph: &Graph,
    sheet: &Sheet,
    block: bool,
) -> Result<Swept, Memory>
    requires named { IsName name }
    requires graph { IsValidGraph graph.now }
    requires sheet { IsValidSheet sheet.now }
    ensures { IfOk result (IsSweptBy name graph.now sheet.now block) }
{
    let Least {
        period,
        entries,
        below,
    } = least(alloc, graph, sheet, block)?;
    let reports = reports_of(alloc, name.as_str(), graph, sheet, block, entries)?;
    let below = below_of(alloc, name.as_str(), graph, sheet, block, period, below)?;
    Ok(Swept {
        name,
        period,
        reports,
        below,
    })
}

// What a sweep says of a behaviour, or that it has too many operations.
fn sweep_at(alloc: Global, ext: &Extension, sheet: &Sheet, which: Which) -> Result<Swept, SweepErr>
    requires well_formed { IsWellFormed ext.now }
    requires named { AreNamed (view_extension ext.now) }
    requires sheet { IsValidSheet sheet.now }
    requires in_range { HasBehaviour (view_extension ext.now) which }
    ensures swept { IfOk result (IsSwept (view_extension ext.now) sheet.now which) }
    ensures large { IfErr result (λ e. IsLargeAs (view_extension ext.now) e which) }
{
    let name = Name::from_text(alloc, name_of(ext, which))?;
    match graph_of(alloc, ext, which) {
        Ok(graph) => {
            let swept = sweep_graph(alloc, name, &graph, sheet, is_block(which))?;
            Ok(swept)
        }
        Err(FlowErr::TooManyOps) => {
            let line = too_many_text(alloc, name.as_str())?;
            Err(SweepErr::TooManyOps(line))
        }
        Err(FlowErr::Memory) => Err(SweepErr::Memory),
    }
}

// What a sweep says of these behaviours, one after the other.
fn sweeps_of(
    alloc: Global,
    ext: &Extension,
    sheet: &Sheet,
    list: &[Which],
) -> Result<List<Swept>, SweepErr>
    requires well_formed { IsWellFormed ext.now }
    requires named { AreNamed (view_extension ext.now) }
    requires sheet { IsValidSheet sheet.now }
    requires in_range { All (HasBehaviour (view_extension ext.now)) list.now }
    ensures swept { IfOk result (AreSwept (view_extension ext.now) sheet.now list.now) }
    ensures large { IfErr result (IsFirstLarge (view_extension ext.now) list.now) }
{
    let mut sweeps = List::new(alloc);
    for which in list {
        match sweep_at(alloc, ext, sheet, *which) {
            Ok(swept) => {
                if sweeps.push(swept).is_err() {
                    return Err(SweepErr::Memory);
                }
            }
            Err(error) => return Err(error),
        }
    }
    Ok(sweeps)
}

/// The least period of each behaviour of an extension on the core of a datasheet, the instructions first and then the always-blocks, with the
/// reports that show it from both sides. For each behaviour its graph is made and then its sweep, before the next one; the first that has too
/// many operations is the refusal. That a behaviour has no schedule with any period is no refusal.
pub fn sweep(alloc: Global, ext: &Extension, sheet: &Sheet) -> Result<List<Swept>, SweepErr>
    requires well_formed { IsWellFormed ext.now }
    requires named { AreNamed (view_extension ext.now) }
    requires sheet { IsValidSheet sheet.now }
    ensures swept { IfOk result (AreSwept (view_extension ext.now) sheet.now (behaviours_of (view_extension ext.now))) }
    ensures large { IfErr result (IsFirstLarge (view_extension ext.now) (behaviours_of (view_extension ext.now))) }
{
    behaviour_laws();
    let list = behaviours_in(alloc, ext)?;
    sweeps_of(alloc, ext, sheet, list.as_slice())
}
