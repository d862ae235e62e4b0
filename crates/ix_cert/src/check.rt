ghost use Rattle.std.specs.Prelude.{◌≡◌, ◌+◌, ◌<◌, length, All, is_some, true, None, slice_index_or};
ghost use Rattle.ix_sheet.specs.Schedules.{IsAfter};
ghost use Rattle.ix_cert.specs.Faults.{times_of, times_steps, flow_steps, cycle_steps, steps_in, steps_of, block_count, certificate_place, unnamed, blank_part};
ghost use Rattle.ix_sheet.specs.declared.problem.Bound.TheVariants.{Early};
ghost use Rattle.ix_cert.specs.Checks.{Judges, IsReady, IsReadySchedule, IsReadyCycle, IsReadyIn, lines_in};

use crate::cycle::{first_open, is_positive};
use crate::report::{CertErr, Report, ReportBlock};
use crate::steps::{first_broken, first_outside, first_passed, first_unnamed, first_unnamed_part};
use crate::sum::{first_unbalanced, is_cost, is_value};
use ix_sheet::Bound;
use std::alloc::Global;

// What is told of a bound that is none of the problem.
fn unnamed(bound: &Bound, line: u32) -> CertErr
    ensures { result ≡ unnamed bound.now line }
{
    match bound {
        Bound::Dep(..) => CertErr::Dep { line },
        Bound::Early(_) | Bound::Late(_) | Bound::Chain(_) => CertErr::Chain { line },
    }
}

// What is told of a part of the flow whose bound is none.
fn unnamed_part(b: &ReportBlock, line: u32, at: usize) -> CertErr
    requires { at < length b.now.flow }
    ensures { result ≡ unnamed (slice_index_or b.now.flow at blank_part).0 line }
{
    unnamed(&b.flow.as_slice()[at].0, line)
}

// What is told of a bound of the cycle that is none.
fn unnamed_bound(b: &ReportBlock, line: u32, at: usize) -> CertErr
    requires { at < length b.now.cycle }
    ensures { result ≡ unnamed (slice_index_or b.now.cycle at (Early 0)) line }
{
    unnamed(&b.cycle.as_slice()[at], line)
}

// The number of an operation's line.
fn op_line(b: &ReportBlock, first: u32, at: usize) -> u32
    requires at { at < length b.now.problem.ops }
    requires room { first + block_count b.now < 4294967296 }
    ensures { result ≡ first + 1 + at }
{
    first + 1 + at as u32
}

// The number of the line behind the edges.
fn certificate_line(b: &ReportBlock, first: u32) -> u32
    requires room { first + block_count b.now < 4294967296 }
    ensures { result ≡ certificate_place first b.now }
{
    first + 1 + b.problem.ops.len() as u32 + b.problem.edges.len() as u32
}

// The times of a behaviour whose first line has this number: edges, windows, chains, cost.
fn check_times(alloc: Global, b: &ReportBlock, first: u32) -> Result<(), CertErr>
    requires ready { IsReadySchedule b.now }
    requires room { first + block_count b.now < 4294967296 }
    ensures { Judges (times_steps b.now first) result }
{
    if let Some(at) = first_broken(b) {
        let line = first + 1 + b.problem.ops.len() as u32 + at as u32;
        return Err(CertErr::Dep { line });
    }
    if let Some(at) = first_outside(b) {
        let line = op_line(b, first, at);
        return Err(CertErr::Window { line });
    }
    let Ok(passed) = first_passed(alloc, b) else {
        return Err(CertErr::Memory);
    };
    if let Some(at) = passed {
        let line = op_line(b, first, at);
        return Err(CertErr::Chain { line });
    }
    if is_cost(b) {
        Ok(())
    } else {
        let line = certificate_line(b, first);
        Err(CertErr::Value { line })
    }
}

// Its flow: bounds, balances, value.
fn check_flow(alloc: Global, b: &ReportBlock, first: u32) -> Result<(), CertErr>
    requires ready { IsReadySchedule b.now }
    requires mode { is_some b.now.mode ≡ true }
    requires room { first + block_count b.now < 4294967296 }
    ensures { Judges (flow_steps b.now first) result }
{
    if let Some(at) = first_unnamed_part(b) {
        let line = certificate_line(b, first) + 1 + at as u32;
        return Err(unnamed_part(b, line, at));
    }
    let Ok(unbalanced) = first_unbalanced(alloc, b) else {
        return Err(CertErr::Memory);
    };
    if let Some(at) = unbalanced {
        let line = op_line(b, first, at);
        return Err(CertErr::Balance { line });
    }
    if is_value(b) {
        Ok(())
    } else {
        let line = certificate_line(b, first);
        Err(CertErr::Value { line })
    }
}

// The cycle of a behaviour without a schedule: bounds, ends, sum.
fn check_cycle(b: &ReportBlock, first: u32) -> Result<(), CertErr>
    requires ready { IsReadyCycle b.now }
    requires mode { b.now.mode ≡ None }
    requires room { first + block_count b.now < 4294967296 }
    ensures { Judges (cycle_steps b.now first) result }
{
    let line = certificate_line(b, first);
    if let Some(at) = first_unnamed(b) {
        let line = line + at as u32;
        return Err(unnamed_bound(b, line, at));
    }
    if let Some(at) = first_open(b) {
        let line = line + at as u32;
        return Err(CertErr::NotClosed { line });
    }
    if is_positive(b) {
        Ok(())
    } else {
        Err(CertErr::NotPositive { line })
    }
}

// One behaviour.
fn check_block(alloc: Global, b: &ReportBlock, first: u32) -> Result<(), CertErr>
    requires ready { IsReadyIn b.now b.now.mode }
    requires room { first + block_count b.now < 4294967296 }
    ensures { Judges (steps_in b.now.mode b.now first) result }
{
    match b.mode {
        None => check_cycle(b, first),
        Some(_) => {
            if let Err(error) = check_times(alloc, b, first) {
                return Err(error);
            }
            check_flow(alloc, b, first)
        }
    }
}

// How many lines a behaviour has.
fn count_lines(b: &ReportBlock) -> u32
    requires room { block_count b.now < 4294967296 }
    ensures { result ≡ block_count b.now }
{
    let certificate = match b.mode {
        None => b.cycle.len() as u32,
        Some(_) => 1 + b.flow.len() as u32,
    };
    2 + b.problem.ops.len() as u32 + b.problem.edges.len() as u32 + certificate
}

/// The behaviours of a report whose first line has this number, one after the other.
pub(crate) fn check_report(alloc: Global, report: &Report, first: u32) -> Result<(), CertErr>
    requires ready { All (λ b. IsReadyIn b b.mode) report.now.blocks }
    requires room { first + 2 + lines_in report.now.blocks < 4294967296 }
    ensures { Judges (steps_of report.now first) result }
{
    let mut line = first + 2;
    'blocks: for block in report.blocks.as_slice() {
        match check_block(alloc, block, line) {
            Ok(()) => line += count_lines(block),
            Err(error) => return Err(error),
        }
    }
    Ok(())
}
