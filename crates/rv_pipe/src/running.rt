ghost use Rattle.std.specs.Option.{option_copied};
ghost use Rattle.std.specs.Prelude.{◌≡◌, ℕ, ◌≤◌, List, [], length, take, vec_capacity, OnOk, OnErr, Err};
ghost use Rattle.ix_standing.specs.Standing.{Stands};
ghost use Rattle.ix_io.specs.Faults.{Rose};
ghost use Rattle.ix_io.specs.Sink.{Appends, AppendsFront};
ghost use Rattle.rv_text.specs.Telling.{Carries, Breaks};
ghost use Rattle.rv_machine.specs.Owing.{targets_owed};
ghost use Rattle.rv_engine.specs.Settings.{setting, first_machine};
ghost use Rattle.rv_machine.specs.DesignText.{most_targets, IsDesignText};
ghost use Rattle.rv_pipe.specs.Texts.{text_from, end_text};

use crate::pipeline::{Pipeline, nothing_shown, quiet};
use ix_behaviour::behaviour_laws;
use ix_io::{Out, Sink, WriteErr};
use ix_plan::{Design, Target};
use rv_core::Shape;
use rv_isa::Image;
use rv_text::{RunErr, make_room, write_state};
use rv_trace::put_row;
use rv_waits::{Lines, Waits};
use std::alloc::Global;

/// So many registers can have an outstanding write: 32 of the base, and 16 custom ones.
const MOST_TARGETS: u32 = 48;

/// Makes rows until one has a stop, or so many are made, and writes their lines, but for what stays in the buffer.
fn write_rows<S: Sink>(
    pipeline: &mut Pipeline<'_>,
    shape: Shape,
    cycles: u32,
    out: &mut Out,
    sink: &mut S,
) -> Result<(), WriteErr>
    requires first { pipeline.old.machine ≡ first_machine pipeline.old.setting }
    requires shape { shape ≡ pipeline.old.setting.design.sheet.shape }
    ensures setting { pipeline.new.setting ≡ pipeline.old.setting }
    ensures carries { OnOk result (Carries (S.written sink.old) out.old (text_from pipeline.old.setting cycles (first_machine pipeline.old.setting)) (S.written sink.new) out.new (end_text pipeline.old.setting pipeline.new.machine)) }
    ensures breaks { OnErr result (Breaks (S.written sink.old) out.old (text_from pipeline.old.setting cycles (first_machine pipeline.old.setting)) (S.written sink.new)) }
    ensures fault { OnErr result (Rose (S.faults sink.old) (S.faults sink.new)) }
    ensures never_fell { S.faults sink.old ≤ S.faults sink.new }
{
    let mut shown = nothing_shown();
    let mut row = quiet();
    for number in 0..cycles {
        match make_room(out, sink) {
            Ok(()) => {
                pipeline.cycle(false, &mut shown, &mut row);
                put_row(out, number, shape, &row);
                if row.stop.is_some() {
                    return Ok(());
                }
            }
            Err(error) => return Err(error),
        }
    }
    Ok(())
}

/// Lists the registers with outstanding writes after the last row, in the order of retirement, in reserved room.
fn list_outstanding(pipeline: &Pipeline<'_>, list: &mut Vec<(u32, Target)>)
    requires empty { list.old.items ≡ [] }
    requires room { most_targets ≤ vec_capacity list.old }
    ensures few { length list.new.items ≤ most_targets }
    ensures list { list.new.items ≡ take most_targets (targets_owed pipeline.now.machine.owed) }
{
    'targets: for k in 0..MOST_TARGETS {
        match pipeline.outstanding(k) {
            Some(one) => list.push(one).unwrap(),
            None => break,
        }
    }
}

/// Writes the run of a pipeline of a design that has made no row, whose outstanding writes are listed in reserved room, and all that is buffered.
fn tell<S: Sink>(
    design: &Design,
    pipeline: &mut Pipeline<'_>,
    cycles: u32,
    outstanding: &mut Vec<(u32, Target)>,
    out: &mut Out,
    sink: &mut S,
) -> Result<(), WriteErr>
    requires design { design.now ≡ pipeline.old.setting.design }
    requires first { pipeline.old.machine ≡ first_machine pipeline.old.setting }
    requires few { length design.now.extension.registers ≤ 16 }
    requires empty { out.old ≡ [] }
    requires list { outstanding.old.items ≡ [] }
    requires room { most_targets ≤ vec_capacity outstanding.old }
    ensures whole { OnOk result (Appends (S.written sink.old) (S.written sink.new) (text_from pipeline.old.setting cycles (first_machine pipeline.old.setting))) }
    ensures front { OnErr result (AppendsFront (S.written sink.old) (S.written sink.new) (text_from pipeline.old.setting cycles (first_machine pipeline.old.setting))) }
    ensures fault { OnErr result (Rose (S.faults sink.old) (S.faults sink.new)) }
{
    match write_rows(pipeline, design.sheet.shape, cycles, out, sink) {
        Ok(()) => {
            list_outstanding(pipeline, outstanding);
            match write_state(
                design.extension.registers.len(),
                outstanding.as_slice(),
                pipeline.arch(),
                out,
                sink,
            ) {
                Ok(()) => out.flush(sink),
                Err(error) => Err(error),
            }
        }
        Err(error) => Err(error),
    }
}

/// Runs an image on the core and with the extension of a design, over a memory with these waits, and with this interrupt line, if there is one, for so many
/// cycles or to a stop, and writes the text of the run: the lines of each row as it is made, and the state. All memory is taken before the first cycle.
pub fn write_design_run<S: Sink>(
    alloc: Global,
    design: &Design,
    image: &Image,
    waits: &Waits,
    lines: Option<&Lines>,
    cycles: u32,
    sink: &mut S,
) -> Result<(), RunErr>
    requires stands { Stands design.now }
    ensures whole { OnOk result ((text : List ℕ) × IsDesignText (setting design.now image.now waits.now (option_copied lines.entry)) cycles text × Appends (S.written sink.old) (S.written sink.new) text) }
    ensures fault { result ≡ Err RunErr.Fault → Rose (S.faults sink.old) (S.faults sink.new) × ((text : List ℕ) × IsDesignText (setting design.now image.now waits.now (option_copied lines.entry)) cycles text × AppendsFront (S.written sink.old) (S.written sink.new) text) }
    ensures memory { result ≡ Err RunErr.Memory → S.written sink.new ≡ S.written sink.old }
{
    behaviour_laws();
    let Ok(mut out) = Out::new(alloc) else {
        return Err(RunErr::Memory);
    };
    let Ok(mut outstanding) = Vec::with_capacity(alloc, MOST_TARGETS as usize) else {
        return Err(RunErr::Memory);
    };
    let Ok(mut pipeline) = Pipeline::new(alloc, design, image, waits, lines) else {
        return Err(RunErr::Memory);
    };
    match tell(
        design,
        &mut pipeline,
        cycles,
        &mut outstanding,
        &mut out,
        sink,
    ) {
        Ok(()) => Ok(()),
        Err(_) => Err(RunErr::Fault),
    }
}
