ghost use Rattle.std.specs.Prelude.{◌≡◌, ◌++◌, [], ◌∷◌, IfOk, IfErr, OnOk};
ghost use Rattle.ix_extension.specs.Extensions.{view_extension};
ghost use Rattle.ix_extension.specs.WellFormed.{IsWellFormed};
ghost use Rattle.ix_sheet.specs.Sheets.{IsValidSheet};
ghost use Rattle.ix_cert.specs.Layout.{IsInForm, report_lines};
ghost use Rattle.ix_lines.specs.Lines.{text_of};
ghost use Rattle.ix_cert.specs.Certificates.{IsFaultless};
ghost use Rattle.ix_reports.specs.Blocks.{IsSound};
ghost use Rattle.ix_schedules.specs.Scheduling.{behaviours_of, AreNamed, IsFirstRefused};
ghost use Rattle.ix_schedules.specs.ScheduleText.{IsScheduleText, IsRefusedText, too_many_line, no_schedule_line, alone};

use crate::scheduling::{ScheduleErr, schedule};
use ix_bits::{List, Memory, Name};
use ix_cert::{Report, ReportBlock, print_report};
use ix_reports::version;
use ix_sheet::Sheet;
use ix_tree::Extension;
use std::alloc::Global;

/// Why the behaviours of an extension are not all scheduled, as a text: the first that is not, the instructions before the always-blocks.
#[derive(Drop)]
pub enum TextErr {
    /// The line `refused Extension TooManyOps` with the name of a behaviour of more than 256 operations.
    TooManyOps(List<u8>),
    /// The line `refused NoSchedule` with the name of a behaviour, and the report of it alone, with a cycle that shows that it has no schedule.
    NoSchedule(List<u8>),
    Memory,
}

impl From<Memory> for TextErr {
    ghost use Rattle.std.specs.Prelude.{◌≡◌};
    ghost use Rattle.ix_schedules.specs.declared.text.TextErr.TheVariants.{Memory as memory};

    ghost from_gives = { λ _ e. e ≡ memory };

    fn from(_want: Memory) -> TextErr {
        TextErr::Memory
    }
}

fn put(out: &mut Vec<u8>, text: &[u8]) -> Result<(), Memory>
    ensures { OnOk result (out.new.items ≡ out.old.items ++ text.now) }
{
    match out.extend_from_slice(text) {
        Ok(()) => Ok(()),
        Err(_) => Err(Memory),
    }
}

/// The line of a behaviour that has too many operations.
#[tactic(auto, unfolding(crate::specs::ScheduleText::too_many_line))]
pub fn too_many_text(alloc: Global, name: &str) -> Result<List<u8>, Memory>
    ensures { IfOk result (λ text. text ≡ too_many_line name.now ++ 10 ∷ []) }
{
    let mut out = Vec::new(alloc);
    put(&mut out, b"refused Extension TooManyOps ")?;
    put(&mut out, name.as_bytes())?;
    put(&mut out, b"\n")?;
    Ok(List::from_vec(out))
}

// The line of a behaviour that has no schedule, and what stands behind it.
#[tactic(auto, unfolding(crate::specs::ScheduleText::no_schedule_line))]
fn no_schedule(alloc: Global, name: &str, report: &[u8]) -> Result<List<u8>, Memory>
    ensures { IfOk result (λ text. text ≡ (no_schedule_line name.now ++ 10 ∷ []) ++ report.now) }
{
    let mut out = Vec::new(alloc);
    put(&mut out, b"refused NoSchedule ")?;
    put(&mut out, name.as_bytes())?;
    put(&mut out, b"\n")?;
    put(&mut out, report)?;
    Ok(List::from_vec(out))
}

/// The report of one behaviour alone.
pub fn report_alone(alloc: Global, sheet: &Sheet, block: ReportBlock) -> Result<Report, Memory>
    ensures { IfOk result (λ report. report ≡ alone sheet.now block) }
{
    let mut blocks = List::new(alloc);
    blocks.push(block)?;
    Ok(Report {
        version: version(sheet),
        period: sheet.period,
        blocks,
    })
}

// The refusal of a behaviour that has no schedule.
fn refuse_block(alloc: Global, sheet: &Sheet, block: ReportBlock) -> Result<List<u8>, Memory>
    requires sheet { IsValidSheet sheet.now }
    requires sound { IsSound sheet.now.weighted sheet.now.period block }
    ensures text { IfOk result (λ text. text ≡ text_of (no_schedule_line block.name ∷ report_lines (alone sheet.now block))) }
    ensures faultless { IfOk result IsFaultless }
{
    let name = Name::from_text(alloc, block.name.as_str())?;
    let report = report_alone(alloc, sheet, block)?;
    let text = print_report(alloc, &report)?;
    no_schedule(alloc, name.as_str(), text.as_slice())
}

/// The text of the refusal of the first behaviour of an extension that is not scheduled: the line that names it, and behind it the report of one
/// without a schedule.
pub fn refusal_text(alloc: Global, ext: &Extension, sheet: &Sheet, error: ScheduleErr) -> TextErr
    requires sheet { IsValidSheet sheet.now }
    requires refused { IsFirstRefused (view_extension ext.now) sheet.now (behaviours_of (view_extension ext.now)) error }
    ensures { IsRefusedText (view_extension ext.now) sheet.now result }
{
    match error {
        ScheduleErr::TooManyOps(name) => match too_many_text(alloc, name.as_str()) {
            Ok(line) => TextErr::TooManyOps(line),
            Err(_) => TextErr::Memory,
        },
        ScheduleErr::NoSchedule(block) => match refuse_block(alloc, sheet, block) {
            Ok(text) => TextErr::NoSchedule(text),
            Err(_) => TextErr::Memory,
        },
        ScheduleErr::Memory => TextErr::Memory,
    }
}

/// The text of the report of an extension on the core of a datasheet: of each behaviour, instructions first and then always-blocks, its operations,
/// its mode by the rule, and the chosen schedule in it with its cost and the flow that shows it. For each behaviour its graph is made and then its
/// schedule, before the next behaviour; the first that has too many operations, or no legal schedule in its widest windows, is the refusal.
pub fn schedule_text(alloc: Global, ext: &Extension, sheet: &Sheet) -> Result<List<u8>, TextErr>
    requires well_formed { IsWellFormed ext.now }
    requires named { AreNamed (view_extension ext.now) }
    requires sheet { IsValidSheet sheet.now }
    ensures text { IfOk result (IsScheduleText (view_extension ext.now) sheet.now) }
    ensures refused { IfErr result (IsRefusedText (view_extension ext.now) sheet.now) }
{
    match schedule(alloc, ext, sheet) {
        Ok(report) => Ok(print_report(alloc, &report)?),
        Err(error) => Err(refusal_text(alloc, ext, sheet, error)),
    }
}
