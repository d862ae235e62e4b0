ghost use Rattle.std.specs.Prelude.{◌≡◌, ℕ, ◌≤◌, List, ◌∷◌, [], length, map, None, ◌⊎◌};
ghost use Rattle.ix_extension.specs.Extensions.{view_extension};
ghost use Rattle.ix_extension.specs.WellFormed.{IsWellFormed};
ghost use Rattle.ix_sheet.specs.Sheets.{IsValidSheet};
ghost use Rattle.ix_standing.specs.Standing.{Stands};
ghost use Rattle.ix_schedules.specs.Scheduling.{AreNamed};
ghost use Rattle.rv_trace.specs.Trace.{newest};
ghost use Rattle.ix_words.specs.declared.command.Command.{Command as TheCommand};
ghost use Rattle.ix_words.specs.Readings.{extension_read, sheet_read, number_read, reading_of};
ghost use Rattle.ix_words.specs.CommandLine.{most_drawn};
ghost use Rattle.ix_tool.specs.CommandOutput.{most_rows, IsDesignSummary, Answered, TakesBench, Writes};

use crate::tool::refuse;
use ix_design::build;
use ix_io::{Out, Sink};
use ix_plan::Design;
use ix_schedules::refusal_text;
use ix_sheet::Sheet;
use ix_tree::Extension;
use ix_words::status::Status;
use ix_words::value::Value;
use rv_bench::{drawn_image, write_summary};
use rv_pipe::Machine;
use rv_waits::Waits;
use std::alloc::Global;

/// At most so many rows are made.
const ROWS: u32 = 200_000;

/// Makes rows until one has a stop, or no more fit.
fn run_machine(machine: &mut Machine<'_>)
    requires first { machine.old.rows ≡ [] }
    requires spare { machine.old.spare ≡ most_rows }
    ensures setting { machine.new.setting ≡ machine.old.setting }
    ensures few { length machine.new.rows ≤ most_rows }
    ensures whole { (newest machine.new.rows).stop ≡ None → length machine.new.rows ≡ most_rows }
{
    'rows: for _ in 0..ROWS {
        let row = machine.cycle();
        if row.stop.is_some() {
            break;
        }
    }
}

/// Writes the summary of the run of a drawn image, over a memory that never waits, on the core and with the extension of a design. All memory is taken before the first row.
fn bench_design<S: Sink>(
    alloc: Global,
    design: &Design,
    number: u32,
    count: u32,
    sink: &mut S,
) -> Status
    requires stands { Stands design.now }
    requires few { count ≤ most_drawn }
    ensures { ((result ≡ Status.Memory) × (S.written sink.new ≡ S.written sink.old))
        ⊎ ((text : List ℕ) × IsDesignSummary design.now number count text × Writes Status.Ok text (S.written sink.old) (S.written sink.new) (S.faults sink.old) (S.faults sink.new) result) }
{
    let Ok(mut out) = Out::new(alloc) else {
        return Status::Memory;
    };
    let Ok(image) = drawn_image(alloc, &design.extension, number, count) else {
        return Status::Memory;
    };
    let waits = Waits::new(alloc);
    let Ok(mut machine) = Machine::new(alloc, design, &image, &waits, ROWS) else {
        return Status::Memory;
    };
    run_machine(&mut machine);
    match write_summary(count + 2, machine.trace(), &mut out, sink) {
        Ok(()) => Status::Ok,
        Err(_) => Status::WriteFault,
    }
}

/// Writes the summary of the run of a drawn image on the core of a datasheet with an extension, or the refusal of its first behaviour that is not scheduled.
fn bench_extension<S: Sink>(
    alloc: Global,
    extension: Extension,
    sheet: Sheet,
    number: u32,
    count: u32,
    sink: &mut S,
) -> Status
    requires well_formed { IsWellFormed extension }
    requires named { AreNamed (view_extension extension) }
    requires sheet { IsValidSheet sheet }
    requires few { count ≤ most_drawn }
    ensures { Answered TheCommand.Bench (extension_read (view_extension extension) ∷ sheet_read sheet ∷ number_read number ∷ number_read count ∷ []) (S.written sink.old) (S.written sink.new) (S.faults sink.old) (S.faults sink.new) result }
{
    match build(alloc, &extension, &sheet) {
        Ok(built) => {
            let design = Design {
                extension,
                sheet,
                plans: built.plans,
                nets: built.nets,
            };
            bench_design(alloc, &design, number, count, sink)
        }
        Err(error) => refuse(refusal_text(alloc, &extension, &sheet, error), sink),
    }
}

/// Writes the summary that an extension, a datasheet and these values ask for.
fn bench_on_sheet<S: Sink>(
    alloc: Global,
    extension: Extension,
    sheet: Sheet,
    values: &[Value],
    sink: &mut S,
) -> Status
    requires { TakesBench (extension_read (view_extension extension) ∷ sheet_read sheet ∷ map reading_of values.now) }
    ensures { Answered TheCommand.Bench (extension_read (view_extension extension) ∷ sheet_read sheet ∷ map reading_of values.now) (S.written sink.old) (S.written sink.new) (S.faults sink.old) (S.faults sink.new) result }
{
    match values {
        [Value::Number(number), Value::Number(count)] => {
            bench_extension(alloc, extension, sheet, *number, *count, sink)
        }
        _ => unreachable!(),
    }
}

/// Writes the summary that an extension and these values ask for.
fn bench_with<S: Sink>(
    alloc: Global,
    extension: Extension,
    values: Vec<Value>,
    sink: &mut S,
) -> Status
    requires { TakesBench (extension_read (view_extension extension) ∷ map reading_of values.items) }
    ensures { Answered TheCommand.Bench (extension_read (view_extension extension) ∷ map reading_of values.items) (S.written sink.old) (S.written sink.new) (S.faults sink.old) (S.faults sink.new) result }
{
    let mut values = values;
    match values.remove(0) {
        Value::Sheet(sheet) => bench_on_sheet(alloc, extension, sheet, values.as_slice(), sink),
        _ => unreachable!(),
    }
}

/// Writes the summary of a drawn run that these values ask for.
pub(crate) fn answer_bench<S: Sink>(alloc: Global, values: Vec<Value>, sink: &mut S) -> Status
    requires { TakesBench (map reading_of values.items) }
    ensures { Answered TheCommand.Bench (map reading_of values.items) (S.written sink.old) (S.written sink.new) (S.faults sink.old) (S.faults sink.new) result }
{
    let mut values = values;
    match values.remove(0) {
        Value::Extension(extension) => bench_with(alloc, extension, values, sink),
        _ => unreachable!(),
    }
}
