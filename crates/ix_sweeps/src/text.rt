//! The text of a sweep.

ghost use Rattle.std.specs.Prelude.{◌≡◌, ◌++◌, IfOk, IfErr, OnOk, All, string_bytes};
ghost use Rattle.std.specs.List.{flat_map};
ghost use Rattle.ix_extension.specs.Extensions.{view_extension};
ghost use Rattle.ix_extension.specs.WellFormed.{IsWellFormed};
ghost use Rattle.ix_sheet.specs.Sheets.{IsValidSheet};
ghost use Rattle.ix_cert.specs.Layout.{IsInForm};
ghost use Rattle.ix_schedules.specs.Scheduling.{AreNamed, behaviours_of};
ghost use Rattle.ix_sweeps.specs.Sweeping.{IsFirstLarge};
ghost use Rattle.ix_sweeps.specs.SweepText.{head_text, report_text, reports_in, swept_text, AreInForm, IsSweepText};

use crate::sweeping::{SweepErr, Swept, sweep};
use ix_bits::{List, Memory};
use ix_cert::{Report, print_report};
use ix_sheet::Sheet;
use ix_tree::Extension;
use std::alloc::Global;

fn put(out: &mut Vec<u8>, text: &[u8]) -> Result<(), Memory>
    ensures { OnOk result (out.new.items ≡ out.old.items ++ text.now) }
{
    match out.extend_from_slice(text) {
        Ok(()) => Ok(()),
        Err(_) => Err(Memory),
    }
}

// The line with a behaviour's least period, or that it has none.
fn head(alloc: Global, name: &str, period: Option<u32>) -> Result<String, Memory>
    ensures { IfOk result (λ line. string_bytes line ≡ head_text name.now period) }
{
    let line = match period {
        Some(period) => format!(in alloc; "sweep {name} least {period}\n"),
        None => format!(in alloc; "sweep {name} none\n"),
    };
    match line {
        Ok(line) => Ok(line),
        Err(_) => Err(Memory),
    }
}

fn put_report(alloc: Global, out: &mut Vec<u8>, report: &Report) -> Result<(), Memory>
    requires { IsInForm report.now }
    ensures { OnOk result (out.new.items ≡ out.old.items ++ report_text report.now) }
{
    let text = print_report(alloc, report)?;
    put(out, text.as_slice())
}

fn put_reports(alloc: Global, out: &mut Vec<u8>, reports: &[Report]) -> Result<(), Memory>
    requires { All IsInForm reports.now }
    ensures { OnOk result (out.new.items ≡ out.old.items ++ flat_map report_text reports.now) }
{
    for report in reports {
        put_report(alloc, out, report)?;
    }
    Ok(())
}

// Puts what a sweep says of a behaviour.
fn put_swept(alloc: Global, out: &mut Vec<u8>, swept: &Swept) -> Result<(), Memory>
    requires { All IsInForm (reports_in swept.now) }
    ensures { OnOk result (out.new.items ≡ out.old.items ++ swept_text swept.now) }
{
    let line = head(alloc, swept.name.as_str(), swept.period)?;
    put(out, line.as_bytes())?;
    put_reports(alloc, out, swept.reports.as_slice())?;
    match &swept.below {
        Some(report) => put_report(alloc, out, report),
        None => Ok(()),
    }
}

fn put_sweeps(alloc: Global, out: &mut Vec<u8>, sweeps: &[Swept]) -> Result<(), Memory>
    requires { AreInForm sweeps.now }
    ensures { OnOk result (out.new.items ≡ out.old.items ++ flat_map swept_text sweeps.now) }
{
    for swept in sweeps {
        put_swept(alloc, out, swept)?;
    }
    Ok(())
}

/// The text of the sweep of an extension on the core of a datasheet: of each behaviour, instructions first and then always-blocks, its least
/// period, the reports of it with this period, twice and four times as much, and the report that shows why there is no schedule with less. The
/// first that has too many operations is the refusal.
pub fn sweep_text(alloc: Global, ext: &Extension, sheet: &Sheet) -> Result<List<u8>, SweepErr>
    requires well_formed { IsWellFormed ext.now }
    requires named { AreNamed (view_extension ext.now) }
    requires sheet { IsValidSheet sheet.now }
    ensures text { IfOk result (IsSweepText (view_extension ext.now) sheet.now) }
    ensures large { IfErr result (IsFirstLarge (view_extension ext.now) (behaviours_of (view_extension ext.now))) }
{
    match sweep(alloc, ext, sheet) {
        Ok(sweeps) => {
            let mut out = Vec::new(alloc);
            put_sweeps(alloc, &mut out, sweeps.as_slice())?;
            Ok(List::from_vec(out))
        }
        Err(error) => Err(error),
    }
}
