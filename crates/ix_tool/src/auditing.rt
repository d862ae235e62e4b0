ghost use Rattle.std.specs.Prelude.{◌≡◌, ◌≤◌, ◌∷◌, List, ℕ, [], length, map, codes, ◌⊎◌};
ghost use Rattle.ix_io.specs.Limits.{most_bytes};
ghost use Rattle.ix_extension.specs.Extensions.{view_extension};
ghost use Rattle.ix_extension.specs.WellFormed.{IsWellFormed};
ghost use Rattle.ix_sheet.specs.Sheets.{IsValidSheet};
ghost use Rattle.ix_standing.specs.Standing.{Stands};
ghost use Rattle.ix_schedules.specs.Scheduling.{AreNamed};
ghost use Rattle.rv_watch.specs.Printed.{AreGiven};
ghost use Rattle.rv_watch.specs.Audited.{IsAudited};
ghost use Rattle.rv_audit.specs.declared.auditing.AuditErr.{AuditErr as AuditErrValue};
ghost use Rattle.rv_audit.specs.Refused.{IsFault};
ghost use Rattle.ix_words.specs.declared.command.Command.{Command as TheCommand};
ghost use Rattle.ix_words.specs.Readings.{extension_read, sheet_read, image_read, waits_read, trace_read, reading_of};
ghost use Rattle.rv_audit.specs.declared.auditing.AuditErr.TheVariants.{Memory as Wanting};
ghost use Rattle.ix_tool.specs.CommandOutput.{fault_text, fault_kind, fault_at, fault_line, Answered, TakesAudit, Writes};

use crate::tool::{finish, refuse};
use ix_bits::List;
use ix_design::build;
use ix_io::Sink;
use ix_plan::Design;
use ix_schedules::refusal_text;
use ix_sheet::Sheet;
use ix_tree::Extension;
use ix_words::status::Status;
use ix_words::value::Value;
use rv_audit::{AuditErr, audit};
use rv_isa::Image;
use rv_waits::Waits;
use std::alloc::Global;

/// Writes the refusal of a line of a trace.
fn refuse_trace<S: Sink>(alloc: Global, kind: &str, line: u32, sink: &mut S) -> Status
    ensures { ((result ≡ Status.Memory) × (S.written sink.new ≡ S.written sink.old))
        ⊎ Writes Status.Trace (fault_text kind.now line) (S.written sink.old) (S.written sink.new) (S.faults sink.old) (S.faults sink.new) result }
{
    match format!(in alloc; "refused Trace {line} {kind}\n") {
        Ok(text) => finish(sink, Status::Trace, text.as_bytes()),
        Err(_) => Status::Memory,
    }
}

/// In what respect a line of a trace is not right, by its name.
fn fault_word(error: AuditErr) -> &'static str
    ensures { result.now ≡ fault_kind error }
{
    match error {
        AuditErr::Line { .. } => "Line",
        AuditErr::Moves { .. } => "Moves",
        AuditErr::Hold { .. } => "Hold",
        AuditErr::Fetch { .. } => "Fetch",
        AuditErr::Successor { .. } => "Successor",
        AuditErr::Unit { .. } => "Unit",
        AuditErr::Stop { .. } => "Stop",
        AuditErr::Commit { .. } => "Commit",
        AuditErr::Write { .. } => "Write",
        AuditErr::State { .. } => "State",
        AuditErr::Memory => "Memory",
    }
}

/// The number of that line, from 1.
fn fault_number(error: AuditErr) -> u32
    ensures { result ≡ fault_at error }
{
    match error {
        AuditErr::Line { line }
        | AuditErr::Moves { line }
        | AuditErr::Hold { line }
        | AuditErr::Fetch { line }
        | AuditErr::Successor { line }
        | AuditErr::Unit { line }
        | AuditErr::Stop { line }
        | AuditErr::Commit { line }
        | AuditErr::Write { line }
        | AuditErr::State { line } => line,
        AuditErr::Memory => 0,
    }
}

/// Writes the refusal of a trace.
fn refuse_error<S: Sink>(alloc: Global, error: AuditErr, sink: &mut S) -> Status
    ensures memory { error ≡ Wanting → (result ≡ Status.Memory) × (S.written sink.new ≡ S.written sink.old) }
    ensures line { ((result ≡ Status.Memory) × (S.written sink.new ≡ S.written sink.old))
        ⊎ Writes Status.Trace (fault_line error) (S.written sink.old) (S.written sink.new) (S.faults sink.old) (S.faults sink.new) result }
{
    if let AuditErr::Memory = error {
        return Status::Memory;
    }
    let line = fault_number(error);
    refuse_trace(alloc, fault_word(error), line, sink)
}

/// Writes a yes where a trace is that of a lawful run of an image on the core and with the extension of a design, over a memory with these waits, or the refusal of its first line
/// that is not right.
fn audit_design<S: Sink>(
    alloc: Global,
    design: &Design,
    image: &Image,
    waits: &Waits,
    trace: &[u8],
    sink: &mut S,
) -> Status
    requires stands { Stands design.now }
    requires given { AreGiven image.now waits.now }
    requires within { length trace.now ≤ most_bytes }
    ensures { ((result ≡ Status.Memory) × (S.written sink.new ≡ S.written sink.old))
        ⊎ (((e : AuditErrValue) × IsFault design.now image.now waits.now trace.now e × Writes Status.Trace (fault_line e) (S.written sink.old) (S.written sink.new) (S.faults sink.old) (S.faults sink.new) result)
        ⊎ (IsAudited design.now image.now waits.now trace.now × Writes Status.Ok (codes "yes\n") (S.written sink.old) (S.written sink.new) (S.faults sink.old) (S.faults sink.new) result)) }
{
    match audit(alloc, design, image, waits, trace) {
        Ok(()) => finish(sink, Status::Ok, b"yes\n"),
        Err(error) => refuse_error(alloc, error, sink),
    }
}

/// Writes what is due of a trace on the core of a datasheet with an extension, or the refusal of the first behaviour that is not scheduled.
fn audit_extension<S: Sink>(
    alloc: Global,
    extension: Extension,
    sheet: Sheet,
    image: &Image,
    waits: &Waits,
    trace: &[u8],
    sink: &mut S,
) -> Status
    requires well_formed { IsWellFormed extension }
    requires named { AreNamed (view_extension extension) }
    requires sheet { IsValidSheet sheet }
    requires given { AreGiven image.now waits.now }
    requires within { length trace.now ≤ most_bytes }
    ensures { Answered TheCommand.Audit (extension_read (view_extension extension) ∷ sheet_read sheet ∷ image_read image.now ∷ waits_read waits.now ∷ trace_read trace.now ∷ []) (S.written sink.old) (S.written sink.new) (S.faults sink.old) (S.faults sink.new) result }
{
    match build(alloc, &extension, &sheet) {
        Ok(built) => {
            let design = Design {
                extension,
                sheet,
                plans: built.plans,
                nets: built.nets,
            };
            audit_design(alloc, &design, image, waits, trace, sink)
        }
        Err(error) => refuse(refusal_text(alloc, &extension, &sheet, error), sink),
    }
}

/// Writes what an extension, a datasheet and these values ask for.
fn audit_on_sheet<S: Sink>(
    alloc: Global,
    extension: Extension,
    sheet: Sheet,
    values: &[Value],
    sink: &mut S,
) -> Status
    requires { TakesAudit (extension_read (view_extension extension) ∷ sheet_read sheet ∷ map reading_of values.now) }
    ensures { Answered TheCommand.Audit (extension_read (view_extension extension) ∷ sheet_read sheet ∷ map reading_of values.now) (S.written sink.old) (S.written sink.new) (S.faults sink.old) (S.faults sink.new) result }
{
    match values {
        [
            Value::Image(image),
            Value::Waits(waits),
            Value::Trace(trace),
        ] => audit_extension(
            alloc,
            extension,
            sheet,
            image,
            waits,
            trace.as_slice(),
            sink,
        ),
        _ => unreachable!(),
    }
}

/// Writes what an extension and these values ask for.
fn audit_with<S: Sink>(
    alloc: Global,
    extension: Extension,
    values: Vec<Value>,
    sink: &mut S,
) -> Status
    requires { TakesAudit (extension_read (view_extension extension) ∷ map reading_of values.items) }
    ensures { Answered TheCommand.Audit (extension_read (view_extension extension) ∷ map reading_of values.items) (S.written sink.old) (S.written sink.new) (S.faults sink.old) (S.faults sink.new) result }
{
    let mut values = values;
    match values.remove(0) {
        Value::Sheet(sheet) => audit_on_sheet(alloc, extension, sheet, values.as_slice(), sink),
        _ => unreachable!(),
    }
}

/// Writes what is due of the trace that these values ask to be judged.
pub(crate) fn answer_audit<S: Sink>(alloc: Global, values: Vec<Value>, sink: &mut S) -> Status
    requires { TakesAudit (map reading_of values.items) }
    ensures { Answered TheCommand.Audit (map reading_of values.items) (S.written sink.old) (S.written sink.new) (S.faults sink.old) (S.faults sink.new) result }
{
    let mut values = values;
    match values.remove(0) {
        Value::Extension(extension) => audit_with(alloc, extension, values, sink),
        _ => unreachable!(),
    }
}
