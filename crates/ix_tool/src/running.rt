ghost use Rattle.std.specs.Prelude.{◌≡◌, ℕ, List, ◌∷◌, map, ◌⊎◌, OnOk, Err};
ghost use Rattle.std.specs.Option.{option_copied};
ghost use Rattle.ix_io.specs.Faults.{Rose};
ghost use Rattle.ix_io.specs.Sink.{Appends, AppendsFront};
ghost use Rattle.ix_extension.specs.Extensions.{view_extension};
ghost use Rattle.ix_extension.specs.WellFormed.{IsWellFormed};
ghost use Rattle.ix_sheet.specs.Sheets.{IsValidSheet};
ghost use Rattle.ix_standing.specs.Standing.{Stands};
ghost use Rattle.ix_schedules.specs.Scheduling.{AreNamed};
ghost use Rattle.ix_words.specs.Readings.{extension_read, sheet_read, reading_of};
ghost use Rattle.ix_tool.specs.CommandOutput.{command_in, run_values, Answered, HasLines, IsDesignOutput, TakesRun, Writes};

use crate::tool::refuse;
use ix_design::build;
use ix_io::Sink;
use ix_plan::Design;
use ix_schedules::refusal_text;
use ix_sheet::Sheet;
use ix_tree::Extension;
use ix_words::command::RunForm;
use ix_words::status::Status;
use ix_words::value::Value;
use rv_isa::Image;
use rv_pipe::write_design_run;
use rv_text::RunErr;
use rv_waits::{Lines, Waits};
use rv_wave::write_design_wave;
use std::alloc::Global;

/// Writes the run of an image on the core and with the extension of a design in this form, over a memory with these waits and with this interrupt line.
fn write_in<S: Sink>(
    alloc: Global,
    form: RunForm,
    design: &Design,
    image: &Image,
    waits: &Waits,
    lines: Option<&Lines>,
    cycles: u32,
    sink: &mut S,
) -> Result<(), RunErr>
    requires { Stands design.now }
    ensures whole { OnOk result ((text : List ℕ) × IsDesignOutput form design.now image.now waits.now (option_copied lines.entry) cycles text × Appends (S.written sink.old) (S.written sink.new) text) }
    ensures fault { result ≡ Err RunErr.Fault → Rose (S.faults sink.old) (S.faults sink.new) × ((text : List ℕ) × IsDesignOutput form design.now image.now waits.now (option_copied lines.entry) cycles text × AppendsFront (S.written sink.old) (S.written sink.new) text) }
    ensures memory { result ≡ Err RunErr.Memory → S.written sink.new ≡ S.written sink.old }
{
    match form {
        RunForm::Rows | RunForm::Interrupted => {
            write_design_run(alloc, design, image, waits, lines, cycles, sink)
        }
        RunForm::Ports => write_design_wave(alloc, design, image, waits, cycles, sink),
    }
}

/// Writes the run of an image on the core and with the extension of a design in this form, and answers the status.
pub(crate) fn run_design<S: Sink>(
    alloc: Global,
    form: RunForm,
    design: &Design,
    image: &Image,
    waits: &Waits,
    lines: Option<&Lines>,
    cycles: u32,
    sink: &mut S,
) -> Status
    requires { Stands design.now }
    ensures { ((result ≡ Status.Memory) × (S.written sink.new ≡ S.written sink.old))
        ⊎ ((text : List ℕ) × IsDesignOutput form design.now image.now waits.now (option_copied lines.entry) cycles text × Writes Status.Ok text (S.written sink.old) (S.written sink.new) (S.faults sink.old) (S.faults sink.new) result) }
{
    match write_in(alloc, form, design, image, waits, lines, cycles, sink) {
        Ok(()) => Status::Ok,
        Err(RunErr::Memory) => Status::Memory,
        Err(RunErr::Fault) => Status::WriteFault,
    }
}

/// Writes the run of an image on the core of a datasheet with an extension, or the refusal of its first behaviour that is not scheduled.
fn run_extension<S: Sink>(
    alloc: Global,
    form: RunForm,
    extension: Extension,
    sheet: Sheet,
    image: &Image,
    waits: &Waits,
    lines: Option<&Lines>,
    cycles: u32,
    sink: &mut S,
) -> Status
    requires well_formed { IsWellFormed extension }
    requires named { AreNamed (view_extension extension) }
    requires sheet { IsValidSheet sheet }
    requires lines { HasLines form (option_copied lines) }
    ensures { Answered (command_in form) (run_values (view_extension extension) sheet image.now waits.now (option_copied lines.entry) cycles) (S.written sink.old) (S.written sink.new) (S.faults sink.old) (S.faults sink.new) result }
{
    match build(alloc, &extension, &sheet) {
        Ok(built) => {
            let design = Design {
                extension,
                sheet,
                plans: built.plans,
                nets: built.nets,
            };
            run_design(alloc, form, &design, image, waits, lines, cycles, sink)
        }
        Err(error) => refuse(refusal_text(alloc, &extension, &sheet, error), sink),
    }
}

/// Writes the run that an extension, a datasheet and these values ask for.
fn run_on_sheet<S: Sink>(
    alloc: Global,
    form: RunForm,
    extension: Extension,
    sheet: Sheet,
    values: &[Value],
    sink: &mut S,
) -> Status
    requires { TakesRun form (extension_read (view_extension extension) ∷ sheet_read sheet ∷ map reading_of values.now) }
    ensures { Answered (command_in form) (extension_read (view_extension extension) ∷ sheet_read sheet ∷ map reading_of values.now) (S.written sink.old) (S.written sink.new) (S.faults sink.old) (S.faults sink.new) result }
{
    match values {
        [
            Value::Image(image),
            Value::Waits(waits),
            Value::Number(cycles),
        ] => run_extension(
            alloc, form, extension, sheet, image, waits, None, *cycles, sink,
        ),
        [
            Value::Image(image),
            Value::Waits(waits),
            Value::Lines(lines),
            Value::Number(cycles),
        ] => run_extension(
            alloc,
            form,
            extension,
            sheet,
            image,
            waits,
            Some(lines),
            *cycles,
            sink,
        ),
        _ => unreachable!(),
    }
}

/// Writes the run that an extension and these values ask for.
fn run_with<S: Sink>(
    alloc: Global,
    form: RunForm,
    extension: Extension,
    values: Vec<Value>,
    sink: &mut S,
) -> Status
    requires { TakesRun form (extension_read (view_extension extension) ∷ map reading_of values.items) }
    ensures { Answered (command_in form) (extension_read (view_extension extension) ∷ map reading_of values.items) (S.written sink.old) (S.written sink.new) (S.faults sink.old) (S.faults sink.new) result }
{
    let mut values = values;
    match values.remove(0) {
        Value::Sheet(sheet) => run_on_sheet(alloc, form, extension, sheet, values.as_slice(), sink),
        _ => unreachable!(),
    }
}

/// Writes the run with an extension that these values ask for.
pub(crate) fn answer_run<S: Sink>(
    alloc: Global,
    form: RunForm,
    values: Vec<Value>,
    sink: &mut S,
) -> Status
    requires { TakesRun form (map reading_of values.items) }
    ensures { Answered (command_in form) (map reading_of values.items) (S.written sink.old) (S.written sink.new) (S.faults sink.old) (S.faults sink.new) result }
{
    let mut values = values;
    match values.remove(0) {
        Value::Extension(extension) => run_with(alloc, form, extension, values, sink),
        _ => unreachable!(),
    }
}
