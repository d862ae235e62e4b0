//! The least period, the schedules with it and with twice and four times as much, and why there is none with less.

ghost use Rattle.std.specs.Prelude.{◌≡◌, ◌≤◌, ◌*◌, [], ◌∷◌, IfOk, OnOk, Some};
ghost use Rattle.ix_graph.specs.Graphs.{IsValidGraph};
ghost use Rattle.ix_sheet.specs.Sheets.{IsValidSheet};
ghost use Rattle.ix_sheet.specs.Behaviours.{IsWidestModeOf};
ghost use Rattle.ix_modes.specs.Modes.{FitsWidest};
ghost use Rattle.ix_sweep.specs.Periods.{at_period as specified_at_period, FitsAt, IsLeastPeriod, IsPeriodOf, IsEntry, allowed, periods_of, AreEntries, HasOneMore, refuted_at, IsBelow};

use crate::answer::{Entry, Least};
use crate::period::{MOST, at_period, least_period, tested};
use ix_bits::{List, Memory};
use ix_graph::{Graph, Mode};
use ix_modes::{ModeErr, is_spawning, schedule_of};
use ix_sheet::{Bound, Problem, Sheet};
use std::alloc::Global;

// The mode with the widest windows that a behaviour may have.
fn widest_mode(graph: &Graph, block: bool) -> Mode
    ensures { IsWidestModeOf graph.now block result }
{
    if block {
        Mode::Always
    } else if is_spawning(graph) {
        Mode::Decoupled
    } else {
        Mode::Tight
    }
}

// The schedule of a behaviour with a period with which it has one.
fn entry_at(
    alloc: Global,
    graph: &Graph,
    sheet: &Sheet,
    block: bool,
    period: u32,
) -> Result<Entry, Memory>
    requires graph { IsValidGraph graph.now }
    requires sheet { IsValidSheet sheet.now }
    requires some { 1 ≤ period }
    requires most { period ≤ 1000000 }
    requires fits { FitsWidest graph.now (specified_at_period sheet.now period) block }
    ensures entry { IfOk result (IsEntry graph.now sheet.now block) }
    ensures period { IfOk result (λ entry. entry.period ≡ period) }
{
    let sheet = at_period(sheet, period);
    match schedule_of(alloc, graph, &sheet, block) {
        Ok(scheduled) => Ok(Entry { period, scheduled }),
        Err(ModeErr::Memory) => Err(Memory),
        Err(ModeErr::NoSchedule(_, _)) => unreachable!(),
    }
}

// Puts the schedule with a period behind the others, unless no datasheet may have it.
fn push_entry(
    alloc: Global,
    graph: &Graph,
    sheet: &Sheet,
    block: bool,
    period: u32,
    entries: &mut List<Entry>,
) -> Result<(), Memory>
    requires graph { IsValidGraph graph.now }
    requires sheet { IsValidSheet sheet.now }
    requires some { 1 ≤ period }
    requires fits { FitsWidest graph.now (specified_at_period sheet.now period) block }
    ensures { OnOk result (HasOneMore graph.now sheet.now block period entries.old entries.new) }
{
    if period > MOST {
        return Ok(());
    }
    let entry = entry_at(alloc, graph, sheet, block, period)?;
    entries.push(entry)?;
    Ok(())
}

// The schedules with the least period, twice and four times as much.
fn entries_of(
    alloc: Global,
    graph: &Graph,
    sheet: &Sheet,
    block: bool,
    least: u32,
) -> Result<List<Entry>, Memory>
    requires graph { IsValidGraph graph.now }
    requires sheet { IsValidSheet sheet.now }
    requires some { 1 ≤ least }
    requires most { least ≤ 1000000 }
    requires fits { FitsWidest graph.now (specified_at_period sheet.now least) block }
    ensures { IfOk result (AreEntries graph.now sheet.now block (allowed (least ∷ 2 * least ∷ 4 * least ∷ []))) }
{
    let mut entries = List::new(alloc);
    push_entry(alloc, graph, sheet, block, least, &mut entries)?;
    push_entry(alloc, graph, sheet, block, 2 * least, &mut entries)?;
    push_entry(alloc, graph, sheet, block, 4 * least, &mut entries)?;
    Ok(entries)
}

// The contradiction with a period of one less than the least, where that is not 1.
fn below_of(
    alloc: Global,
    graph: &Graph,
    sheet: &Sheet,
    block: bool,
    mode: Mode,
    least: u32,
) -> Result<Option<(Problem, List<Bound>)>, Memory>
    requires graph { IsValidGraph graph.now }
    requires sheet { IsValidSheet sheet.now }
    requires widest { IsWidestModeOf graph.now block mode }
    requires least { IsLeastPeriod graph.now sheet.now mode least }
    ensures { IfOk result (IsBelow graph.now sheet.now block (refuted_at (Some least))) }
{
    if least > 1 {
        tested(alloc, graph, sheet, mode, least - 1)
    } else {
        Ok(None)
    }
}

// The answer for a behaviour that has a schedule with the greatest period.
fn found(
    alloc: Global,
    graph: &Graph,
    sheet: &Sheet,
    block: bool,
    mode: Mode,
) -> Result<Least, Memory>
    requires graph { IsValidGraph graph.now }
    requires sheet { IsValidSheet sheet.now }
    requires widest { IsWidestModeOf graph.now block mode }
    requires fits { FitsAt graph.now sheet.now mode 1000000 }
    ensures period { IfOk result (λ least. IsPeriodOf graph.now sheet.now block least.period) }
    ensures entries { IfOk result (λ least. AreEntries graph.now sheet.now block (periods_of least.period) least.entries) }
    ensures below { IfOk result (λ least. IsBelow graph.now sheet.now block (refuted_at least.period) least.below) }
{
    let period = least_period(alloc, graph, sheet, mode)?;
    let entries = entries_of(alloc, graph, sheet, block, period)?;
    let below = below_of(alloc, graph, sheet, block, mode, period)?;
    Ok(Least {
        period: Some(period),
        entries,
        below,
    })
}

/// The least period with which a behaviour, which may be a block, has a legal schedule in the widest windows that it may have; its schedules
/// with this period, twice and four times as much; and a contradiction with one less. The datasheet's own period changes nothing. Only
/// longest walks decide which periods fit: 21 at most are tested, the greatest first and then 20 by halves. One less than the least is gone
/// through once more, for its contradiction.
pub fn least(alloc: Global, graph: &Graph, sheet: &Sheet, block: bool) -> Result<Least, Memory>
    requires graph { IsValidGraph graph.now }
    requires sheet { IsValidSheet sheet.now }
    ensures period { IfOk result (λ least. IsPeriodOf graph.now sheet.now block least.period) }
    ensures entries { IfOk result (λ least. AreEntries graph.now sheet.now block (periods_of least.period) least.entries) }
    ensures below { IfOk result (λ least. IsBelow graph.now sheet.now block (refuted_at least.period) least.below) }
{
    let mode = widest_mode(graph, block);
    match tested(alloc, graph, sheet, mode, MOST)? {
        Some(below) => Ok(Least {
            period: None,
            entries: List::new(alloc),
            below: Some(below),
        }),
        None => found(alloc, graph, sheet, block, mode),
    }
}
