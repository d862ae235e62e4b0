ghost use Rattle.std.specs.Prelude.{◌≡◌, ◌≢◌, ℕ, List, map, Some, None, ◌⊎◌};
ghost use Rattle.ix_words.specs.declared.status.Status.{Status};
ghost use Rattle.ix_words.specs.declared.command.Command.{Command as TheCommand};
ghost use Rattle.ix_words.specs.CommandLine.{SeqCommand, AsmCommand, ScheduleCommand, BuildCommand, SweepCommand, PipelineCommand, InterruptedCommand, AuditCommand, BarrelCommand, BenchCommand, command_of as specified_command_of, extension_of, report_of, seq_of, source_of, schedule_of, build_of, sweep_of, pipeline_of, interrupted_of, audit_of, barrel_of, bench_of, wave_of, bytes_of};
ghost use Rattle.ix_extension.specs.Extensions.{view_extension};
ghost use Rattle.ix_extension.specs.WellFormed.{IsWellFormed};
ghost use Rattle.ix_listing.specs.Listing.{listing_text};
ghost use Rattle.rv_text.specs.RunText.{run_text};
ghost use Rattle.ix_words.specs.Readings.{Reading, reading_of};
ghost use Rattle.ix_words.specs.WordsRead.{RoseIn};
ghost use Rattle.ix_tool.specs.BarrelOutput.{BarrelAnswer, TightAnswer};
ghost use Rattle.ix_tool.specs.CommandOutput.{IsRunOutput, IsToldAs, Writes, Takes, Answered, Outcome, NoneRises, IsDue, UsageAnswer, ReadFaultAnswer, WriteFaultAnswer, TooLongAnswer, TextAnswer, OutputAnswer, RunAnswer, ListedAnswer, CertifiedAnswer, SteppedAnswer, AssembledAnswer, SourceAnswer, ScheduledAnswer, ModulesAnswer, SweptAnswer, NoScheduleAnswer, ExtensionAnswer, PipelineAnswer, InterruptedAnswer, BenchAnswer, WaveAnswer, AuditAnswer, TraceAnswer, IsStatusOr, Premises, Completes, told_of};

use crate::assembling::assemble_source;
use crate::auditing::answer_audit;
use crate::benching::answer_bench;
use crate::building::build_extension;
use crate::plain::plain_design;
use crate::running::{answer_run, run_design};
use crate::scheduling::schedule_extension;
use crate::sweeping::sweep_extension;
use crate::turning::answer_barrel;
use ix_io::{Shelf, Sink, write_all};
use ix_listing::listing;
use ix_schedules::TextErr;
use ix_sheet::chosen_law;
use ix_tree::Extension;
use ix_words::command::{Command, RunForm, command_of};
use ix_words::status::Status;
use ix_words::value::{Refusal, Value, read_words};
use rv_audit::answer_laws;
use rv_barrel::barrel_laws;
use rv_bench::drawn_laws;
use rv_harts::harts_are_apart;
use rv_isa::Image;
use rv_machine::rows_laws;
use rv_text::{RunErr, write_run};
use rv_waits::Waits;
use rv_wave::wave_laws;
use std::alloc::Global;

/// Writes these bytes and answers the status, or that they could not be written.
pub(crate) fn finish<S: Sink>(sink: &mut S, status: Status, bytes: &[u8]) -> Status
    ensures { Writes status bytes.now (S.written sink.old) (S.written sink.new) (S.faults sink.old) (S.faults sink.new) result }
{
    match write_all(sink, bytes) {
        Ok(()) => status,
        Err(_) => Status::WriteFault,
    }
}

/// Writes the refusal of a behaviour that is not scheduled, and answers its status.
pub(crate) fn refuse<S: Sink>(error: TextErr, sink: &mut S) -> Status
    ensures { ((result ≡ Status.Memory) × (S.written sink.new ≡ S.written sink.old))
        ⊎ ((status : Status) × (text : List ℕ) × IsToldAs error status text × Writes status text (S.written sink.old) (S.written sink.new) (S.faults sink.old) (S.faults sink.new) result) }
{
    match error {
        TextErr::TooManyOps(line) => finish(sink, Status::Extension, line.as_slice()),
        TextErr::NoSchedule(text) => finish(sink, Status::NoSchedule, text.as_slice()),
        TextErr::Memory => Status::Memory,
    }
}

/// Writes the listing of an extension.
fn list_extension<S: Sink>(alloc: Global, extension: &Extension, sink: &mut S) -> Status
    ensures { ((result ≡ Status.Memory) × (S.written sink.new ≡ S.written sink.old))
        ⊎ Writes Status.Ok (listing_text (view_extension extension.now)) (S.written sink.old) (S.written sink.new) (S.faults sink.old) (S.faults sink.new) result }
{
    match listing(alloc, extension) {
        Ok(text) => finish(sink, Status::Ok, text.as_bytes()),
        Err(_) => Status::Memory,
    }
}

/// Writes the run of an image on the core of three stages: that of an extension without sections.
fn run_image<S: Sink>(alloc: Global, image: &Image, cycles: u32, sink: &mut S) -> Status
    ensures { ((result ≡ Status.Memory) × (S.written sink.new ≡ S.written sink.old))
        ⊎ ((text : List ℕ) × IsRunOutput image.now cycles text × Writes Status.Ok text (S.written sink.old) (S.written sink.new) (S.faults sink.old) (S.faults sink.new) result) }
{
    let waits = Waits::new(alloc);
    match plain_design(alloc) {
        Ok(design) => {
            run_design(
                alloc,
                RunForm::Rows,
                &design,
                image,
                &waits,
                None,
                cycles,
                sink,
            )
        }
        Err(_) => Status::Memory,
    }
}

/// Writes the sequential run of an image on a core with an extension.
fn run_steps<S: Sink>(
    alloc: Global,
    extension: &Extension,
    image: &Image,
    steps: u32,
    sink: &mut S,
) -> Status
    requires { IsWellFormed extension.now }
    ensures { ((result ≡ Status.Memory) × (S.written sink.new ≡ S.written sink.old))
        ⊎ Writes Status.Ok (run_text (view_extension extension.now) image.now steps) (S.written sink.old) (S.written sink.new) (S.faults sink.old) (S.faults sink.new) result }
{
    match write_run(alloc, extension, image, steps, sink) {
        Ok(()) => Status::Ok,
        Err(RunErr::Memory) => Status::Memory,
        Err(RunErr::Fault) => Status::WriteFault,
    }
}

/// Writes the run of the base set that these values ask for.
fn answer_image<S: Sink>(alloc: Global, values: &[Value], sink: &mut S) -> Status
    requires { Takes Command.RunImage (map reading_of values.now) }
    ensures { Answered Command.RunImage (map reading_of values.now) (S.written sink.old) (S.written sink.new) (S.faults sink.old) (S.faults sink.new) result }
{
    match values {
        [Value::Image(image), Value::Number(cycles)] => run_image(alloc, image, *cycles, sink),
        _ => unreachable!(),
    }
}

/// Writes the sequential run that these values ask for.
fn answer_seq<S: Sink>(alloc: Global, values: &[Value], sink: &mut S) -> Status
    requires { Takes Command.Seq (map reading_of values.now) }
    ensures { Answered Command.Seq (map reading_of values.now) (S.written sink.old) (S.written sink.new) (S.faults sink.old) (S.faults sink.new) result }
{
    match values {
        [
            Value::Extension(extension),
            Value::Image(image),
            Value::Number(steps),
        ] => { run_steps(alloc, extension, image, *steps, sink) }
        _ => unreachable!(),
    }
}

/// Writes the report that these values ask for.
fn answer_schedule<S: Sink>(alloc: Global, values: &[Value], sink: &mut S) -> Status
    requires { Takes Command.Schedule (map reading_of values.now) }
    ensures { Answered Command.Schedule (map reading_of values.now) (S.written sink.old) (S.written sink.new) (S.faults sink.old) (S.faults sink.new) result }
{
    match values {
        [Value::Extension(extension), Value::Sheet(sheet)] => {
            schedule_extension(alloc, extension, sheet, sink)
        }
        _ => unreachable!(),
    }
}

/// Writes the modules that these values ask for.
fn answer_build<S: Sink>(alloc: Global, values: &[Value], sink: &mut S) -> Status
    requires { Takes Command.Build (map reading_of values.now) }
    ensures { Answered Command.Build (map reading_of values.now) (S.written sink.old) (S.written sink.new) (S.faults sink.old) (S.faults sink.new) result }
{
    match values {
        [Value::Extension(extension), Value::Sheet(sheet)] => {
            build_extension(alloc, extension, sheet, sink)
        }
        _ => unreachable!(),
    }
}

/// Writes the sweep that these values ask for.
fn answer_sweep<S: Sink>(alloc: Global, values: &[Value], sink: &mut S) -> Status
    requires { Takes Command.Sweep (map reading_of values.now) }
    ensures { Answered Command.Sweep (map reading_of values.now) (S.written sink.old) (S.written sink.new) (S.faults sink.old) (S.faults sink.new) result }
{
    match values {
        [Value::Extension(extension), Value::Sheet(sheet)] => {
            sweep_extension(alloc, extension, sheet, sink)
        }
        _ => unreachable!(),
    }
}

/// Writes what is due of the values of a command, but of those that run with an extension.
fn answer_read<S: Sink>(alloc: Global, command: Command, values: &[Value], sink: &mut S) -> Status
    requires reads { command ≢ Command.RunExtension }
    requires draws_nothing { command ≢ Command.Bench }
    requires shows_no_ports { command ≢ Command.Wave }
    requires has_no_line { command ≢ Command.RunInterrupted }
    requires judges_nothing { command ≢ Command.Audit }
    requires takes_no_turns { command ≢ Command.Barrel }
    requires takes { Takes command (map reading_of values.now) }
    ensures { Answered command (map reading_of values.now) (S.written sink.old) (S.written sink.new) (S.faults sink.old) (S.faults sink.new) result }
{
    match (command, values) {
        (Command::RunImage, _) => answer_image(alloc, values, sink),
        (Command::Check, [Value::Extension(extension)]) => list_extension(alloc, extension, sink),
        (Command::Certify, [Value::Report]) => finish(sink, Status::Ok, b"yes\n"),
        (Command::Seq, _) => answer_seq(alloc, values, sink),
        (Command::Schedule, _) => answer_schedule(alloc, values, sink),
        (Command::Build, _) => answer_build(alloc, values, sink),
        (Command::Sweep, _) => answer_sweep(alloc, values, sink),
        (Command::Assemble, [Value::Extension(extension), Value::Source(source)]) => {
            assemble_source(alloc, extension, source, sink)
        }
        _ => unreachable!(),
    }
}

/// Writes what is due of the values of a command.
fn answer<S: Sink>(alloc: Global, command: Command, values: Vec<Value>, sink: &mut S) -> Status
    requires { Takes command (map reading_of values.items) }
    ensures { Answered command (map reading_of values.items) (S.written sink.old) (S.written sink.new) (S.faults sink.old) (S.faults sink.new) result }
{
    match command {
        Command::RunExtension => answer_run(alloc, RunForm::Rows, values, sink),
        Command::RunInterrupted => answer_run(alloc, RunForm::Interrupted, values, sink),
        Command::Wave => answer_run(alloc, RunForm::Ports, values, sink),
        Command::Bench => answer_bench(alloc, values, sink),
        Command::Audit => answer_audit(alloc, values, sink),
        Command::Barrel => answer_barrel(alloc, values, sink),
        _ => answer_read(alloc, command, values.as_slice(), sink),
    }
}

/// What the tool does on these words, in one relation.
fn run_words<F: Shelf, S: Sink>(
    alloc: Global,
    words: &[String],
    shelf: &mut F,
    sink: &mut S,
) -> Status
    ensures { Outcome (F.files shelf.old) (RoseIn (F.faults shelf.old) (F.faults shelf.new)) (bytes_of words.now) (S.written sink.old) (S.written sink.new) (S.faults sink.old) (S.faults sink.new) result }
{
    let Some(command) = command_of(words) else {
        return finish(sink, Status::Usage, b"refused Usage\n");
    };
    match read_words(alloc, command.slots(), &words[1..], shelf) {
        Ok(values) => answer(alloc, command, values, sink),
        Err(Refusal::Line(status, line)) => finish(sink, status, line.as_bytes()),
        Err(Refusal::Memory) => Status::Memory,
    }
}

/// Runs the command of these words over a shelf of files and writes its output to the sink.
///
/// `run IMAGE CYCLES` writes the trace and the state of a run on the core of three stages: at most 200,000 cycles over an
/// image of at most 1,048,576 bytes and 65,536 words. `check EXT` writes the listing of an extension: its registers, tables,
/// encodings and blocks. `certify REPORT` writes `yes` where the check of a report finds no
/// fault. `seq EXT IMAGE STEPS` writes the run of an image one instruction at a time, at most 200,000 of them, on a core with an extension. `asm EXT SOURCE` writes the image of a source with the instructions of an extension.
/// `schedule EXT SHEET` writes the report of an extension's behaviours on the core of a datasheet, `build EXT SHEET` the Verilog text of their modules, `sweep EXT SHEET` the least period of each of them with the
/// reports that show it. `run EXT SHEET IMAGE WAITS CYCLES` writes the trace
/// and the state of a run on the core of a datasheet with an extension, over a memory with a list of waits of at most 65,536 numbers, and `run EXT SHEET IMAGE WAITS LINES CYCLES` that of one with an interrupt line,
/// which is raised in at most 4,096 rows. `bench EXT SHEET NUMBER COUNT` draws an image
/// of at most 10,000 words from a number, runs it there for at most 200,000 cycles, and writes how many words, rows, retirements and outstanding writes there were, and the stop. `wave EXT SHEET IMAGE WAITS CYCLES` writes what the ports of the modules show in each row of the run that `run` writes with these words, as a value change dump.
/// `audit EXT SHEET IMAGE WAITS TRACE` writes `yes` where a trace, wherever it comes from, is that of a lawful run. `barrel EXT SHEET IMAGEA IMAGEB CYCLES` writes the rows of two harts that take turns
/// in one pipeline, each over its own image and with its own state, and both states; a behaviour that may wait in the last stage is refused. The files are read whole and judged one after another, in the order of the words. A refusal writes its one line
/// alone, but that a behaviour without a schedule is named and then reported; want of memory writes nothing, and comes before the first cycle.
pub fn run_tool<F: Shelf, S: Sink>(
    alloc: Global,
    words: &[String],
    shelf: &mut F,
    sink: &mut S,
) -> Status
    // The bytes that were written are the text of one list of rows. These are lawful, what they retire is a prefix of the
    // sequential run with its states and its stop, and no more rows than the bound pass without a retirement.
    ensures headline { result ≡ Status.Ok → told_of (F.files shelf.old) (bytes_of words.now) ≢ None
        → RunAnswer (bytes_of words.now) (told_of (F.files shelf.old) (bytes_of words.now)) (S.written sink.old) (S.written sink.new) }

    // A listing is that of the extension which the file is the text of, and this is well formed.
    ensures listed { result ≡ Status.Ok → (name : List ℕ) → extension_of (bytes_of words.now) ≡ Some name
        → ListedAnswer (F.files shelf.old) name (S.written sink.old) (S.written sink.new) }

    // A yes shows of each behaviour of the report that its times are legal and cheapest, or that there are none.
    ensures certified { result ≡ Status.Ok → (report : List ℕ) → report_of (bytes_of words.now) ≡ Some report
        → CertifiedAnswer (F.files shelf.old) report (S.written sink.old) (S.written sink.new) }

    // An image is that of the words of the source's lines, with the extension which the other file is the text of.
    ensures assembled { result ≡ Status.Ok → (command : AsmCommand) → source_of (bytes_of words.now) ≡ Some command
        → AssembledAnswer (F.files shelf.old) command (S.written sink.old) (S.written sink.new) }

    // A sequential run is that of the image, step by step, on a core with the extension which the file is the text of.
    ensures stepped { result ≡ Status.Ok → (command : SeqCommand) → seq_of (bytes_of words.now) ≡ Some command
        → SteppedAnswer (F.files shelf.old) command (S.written sink.old) (S.written sink.new) }

    // A report is that of the extension on the core of the datasheet which the files are the texts of: of each behaviour its own graph, the mode by the
    // rule, and the chosen schedule in it, which the flow shows; and its check finds no fault.
    ensures scheduled { result ≡ Status.Ok → (command : ScheduleCommand) → schedule_of (bytes_of words.now) ≡ Some command
        → ScheduledAnswer (F.files shelf.old) command (S.written sink.old) (S.written sink.new) }

    // The text of modules denotes a net for each behaviour of the extension which the file is the text of, the instructions first and then the always-blocks. Each
    // serves its behaviour by the chosen schedule in the mode of the rule, for all inputs and all lists of enables.
    ensures modules { result ≡ Status.Ok → (command : BuildCommand) → build_of (bytes_of words.now) ≡ Some command
        → ModulesAnswer (F.files shelf.old) command (S.written sink.old) (S.written sink.new) }

    // A sweep is that of the extension on the core of the datasheet which the files are the texts of: of each behaviour its own graph, the least period with which it has a legal
    // schedule in its widest windows, or that it has none with any; the reports with this period, with twice and with four times as much, and the report of one less, whose cycle
    // shows that it has none. The check of a report finds no fault in any of them. The datasheet's own period changes nothing.
    ensures swept { result ≡ Status.Ok → (command : SweepCommand) → sweep_of (bytes_of words.now) ≡ Some command
        → SweptAnswer (F.files shelf.old) command (S.written sink.old) (S.written sink.new) }

    // A run with an extension is that of a design that stands for the extension and the datasheet which the files are the texts of. The bytes that were written are the text of
    // one list of rows over the image, whose memory has the waits. These are lawful, what they retire is a prefix of the run one instruction at a time with the extension, with its
    // states and its stop, and no more rows than the bound pass without a retirement.
    ensures pipelined { result ≡ Status.Ok → (command : PipelineCommand) → pipeline_of (bytes_of words.now) ≡ Some command
        → PipelineAnswer (F.files shelf.old) command (S.written sink.old) (S.written sink.new) }

    // A run with an interrupt line is that of a design that stands for the extension and the datasheet which the files are the texts of. The bytes that were written are the text
    // of one list of rows over the image, whose memory has the waits, and whose line is raised in the rows that the last file lists. These are lawful, what they retire is a prefix
    // of the run one instruction at a time with the extension, which goes to the handler where they say so, with its states and its stop, no more rows than the bound pass without
    // a retirement, and an interrupt that is to be taken is taken.
    ensures interrupted { result ≡ Status.Ok → (command : InterruptedCommand) → interrupted_of (bytes_of words.now) ≡ Some command
        → InterruptedAnswer (F.files shelf.old) command (S.written sink.old) (S.written sink.new) }

    // A summary is that of rows over the drawn image, of a design that stands for the extension and the datasheet which the files are the texts of. These are lawful, what they
    // retire is a prefix of the run one instruction at a time with the extension, with its states and its stop, and no more rows than the bound pass without a retirement.
    ensures benched { result ≡ Status.Ok → (command : BenchCommand) → bench_of (bytes_of words.now) ≡ Some command
        → BenchAnswer (F.files shelf.old) command (S.written sink.old) (S.written sink.new) }

    // A dump is that of the ports of the modules of a design that stands for the extension and the datasheet which the files are the texts of, in each of a list of rows over the
    // image, whose memory has the waits. These are lawful, what they retire is a prefix of the run one instruction at a time with the extension, with its states and its stop, and no
    // more rows than the bound pass without a retirement. In each row a module's ports show the settled values of one run of its net, whose inputs are those that the row drives.
    ensures waved { result ≡ Status.Ok → (command : PipelineCommand) → wave_of (bytes_of words.now) ≡ Some command
        → WaveAnswer (F.files shelf.old) command (S.written sink.old) (S.written sink.new) }

    // A yes to a trace is said of the text of lawful rows of a design that stands for the extension and the datasheet which the files are the texts of, over the image, whose
    // memory has the waits. What these rows retire is a prefix of the run one instruction at a time with the extension, what they write later is what that run writes, and the
    // state behind them ends the text.
    ensures audited { result ≡ Status.Ok → (command : AuditCommand) → audit_of (bytes_of words.now) ≡ Some command
        → AuditAnswer (F.files shelf.old) command (S.written sink.old) (S.written sink.new) }

    // The rows of two harts are those of a design that stands for the extension and the datasheet which the files are the texts of. Each hart has in them what its own image gives,
    // whatever the other one is; what it retires is a prefix of the run of its image one instruction at a time with the extension, and its state, with the outstanding writes
    // applied, is that run's.
    ensures barrel { result ≡ Status.Ok → (command : BarrelCommand) → barrel_of (bytes_of words.now) ≡ Some command
        → BarrelAnswer (F.files shelf.old) command (S.written sink.old) (S.written sink.new) }

    // For every command: the status and the bytes that were written are due, by the words and the bytes of the files. Of a
    // file of which nothing is told, they are some bytes of at most the greatest length.
    ensures outcome { Outcome (F.files shelf.old) (RoseIn (F.faults shelf.old) (F.faults shelf.new)) (bytes_of words.now)
        (S.written sink.old) (S.written sink.new) (S.faults sink.old) (S.faults sink.new) result }
    ensures ok { result ≡ Status.Ok
        → OutputAnswer (F.files shelf.old) (bytes_of words.now) (S.written sink.old) (S.written sink.new) }

    // Each answer other than Ok has its cause.
    ensures usage { result ≡ Status.Usage → UsageAnswer (bytes_of words.now) (S.written sink.old) (S.written sink.new) }
    ensures read_fault { result ≡ Status.ReadFault
        → ReadFaultAnswer (F.files shelf.old) (bytes_of words.now) (F.faults shelf.old) (F.faults shelf.new) (S.written sink.old) (S.written sink.new) }
    ensures write_fault { result ≡ Status.WriteFault
        → WriteFaultAnswer (F.files shelf.old) (bytes_of words.now) (F.faults shelf.old) (F.faults shelf.new)
        (S.written sink.old) (S.written sink.new) (S.faults sink.old) (S.faults sink.new) }
    ensures too_long { result ≡ Status.TooLong
        → TooLongAnswer (F.files shelf.old) (bytes_of words.now) (S.written sink.old) (S.written sink.new) }
    ensures image { result ≡ Status.Image
        → TextAnswer (F.files shelf.old) (bytes_of words.now) Status.Image (S.written sink.old) (S.written sink.new) }
    ensures extension { result ≡ Status.Extension
        → ExtensionAnswer (F.files shelf.old) (bytes_of words.now) (S.written sink.old) (S.written sink.new) }
    ensures sheet { result ≡ Status.Sheet
        → TextAnswer (F.files shelf.old) (bytes_of words.now) Status.Sheet (S.written sink.old) (S.written sink.new) }
    ensures no_schedule { result ≡ Status.NoSchedule
        → NoScheduleAnswer (F.files shelf.old) (bytes_of words.now) (S.written sink.old) (S.written sink.new) }
    ensures certificate { result ≡ Status.Certificate
        → TextAnswer (F.files shelf.old) (bytes_of words.now) Status.Certificate (S.written sink.old) (S.written sink.new) }
    ensures source { result ≡ Status.Source
        → SourceAnswer (F.files shelf.old) (bytes_of words.now) (S.written sink.old) (S.written sink.new) }
    ensures waits { result ≡ Status.Waits
        → TextAnswer (F.files shelf.old) (bytes_of words.now) Status.Waits (S.written sink.old) (S.written sink.new) }
    ensures lines { result ≡ Status.Lines
        → TextAnswer (F.files shelf.old) (bytes_of words.now) Status.Lines (S.written sink.old) (S.written sink.new) }
    ensures trace { result ≡ Status.Trace
        → TraceAnswer (F.files shelf.old) (bytes_of words.now) (S.written sink.old) (S.written sink.new) }
    ensures tight { result ≡ Status.Barrel
        → TightAnswer (F.files shelf.old) (bytes_of words.now) (S.written sink.old) (S.written sink.new) }
    ensures memory { result ≡ Status.Memory → S.written sink.new ≡ S.written sink.old }

    // What is due of told files is answered, but for faults and want of memory; a refusal of the words yields to neither
    // memory nor files.
    ensures due { (status : Status) (bytes : List ℕ) → F.files shelf.old ≢ None
        → IsDue (F.files shelf.old) NoneRises (bytes_of words.now) status bytes → IsStatusOr status result }
    ensures no_command { specified_command_of (bytes_of words.now) ≡ None → (result ≡ Status.Usage) ⊎ (result ≡ Status.WriteFault) }

    // Each command is complete.
    ensures complete { (command : TheCommand) (values : List Reading)
        → Premises (F.files shelf.old) (bytes_of words.now) (F.faults shelf.old) (F.faults shelf.new) (S.faults sink.old) (S.faults sink.new) command values
        → Completes command values (S.written sink.old) (S.written sink.new) result }
{
    rows_laws();
    drawn_laws();
    wave_laws();
    answer_laws();
    chosen_law();
    harts_are_apart();
    barrel_laws();
    run_words(alloc, words, shelf, sink)
}
