ghost use Rattle.std.specs.Prelude.{◌≡◌, ℕ, suc, ◌+◌, ◌<◌, ◌≤◌, ◌++◌, length, [], true, false, OnOk, OnErr, IfErr, Err};
ghost use Rattle.ix_extension.specs.Extensions.{view_extension};
ghost use Rattle.ix_extension.specs.WellFormed.{IsWellFormed};
ghost use Rattle.ix_eval.specs.Scratches.{IsScratchOf};
ghost use Rattle.ix_io.specs.Faults.{Rose};
ghost use Rattle.ix_io.specs.Sink.{Appends, AppendsFront};
ghost use Rattle.rv_seq.specs.WordEffects.{AreWide};
ghost use Rattle.rv_seq.specs.States.{first};
ghost use Rattle.rv_text.specs.RunText.{state_text, lines_from, run_text};
ghost use Rattle.rv_text.specs.Telling.{Carries, Breaks};

use crate::record_text::{put_step, put_stop_line};
use crate::state_writing::{make_room, write_state};
use ix_behaviour::behaviour_laws;
use ix_eval::Scratch;
use ix_io::{Out, Sink, WriteErr};
use ix_tree::Extension;
use rv_isa::Image;
use rv_seq::{Arch, StepAnswer, seq_step};
use std::alloc::Global;

/// Why a run was not written.
#[derive(Clone, Copy, Debug, PartialEq, Eq)]
pub enum RunErr {
    /// Memory was not found, and nothing was written.
    Memory,
    /// The sink's count of faults rose, and a front of the text was written.
    Fault,
}

// Takes a step and appends its line. Answers whether the run goes on.
fn step_told(
    ext: &Extension,
    image: &Image,
    number: u32,
    arch: &mut Arch,
    scratch: &mut Scratch,
    out: &mut Out,
) -> bool
    requires well_formed { IsWellFormed ext.now }
    requires wide { AreWide (view_extension ext.now) arch.old.custom }
    requires scratch { IsScratchOf (view_extension ext.now) scratch.old }
    requires room { length out.old + 684 ≤ 65536 }
    ensures wide { AreWide (view_extension ext.now) arch.new.custom }
    ensures scratch { IsScratchOf (view_extension ext.now) scratch.new }
    ensures goes_on { result ≡ true → (n : ℕ) → out.old ++ lines_from (view_extension ext.now) image.now (suc n) number arch.old ≡ out.new ++ lines_from (view_extension ext.now) image.now n (suc number) arch.new }
    ensures stops { result ≡ false → (n : ℕ) → out.old ++ lines_from (view_extension ext.now) image.now (suc n) number arch.old ≡ out.new ++ state_text (view_extension ext.now) [] arch.new }
{
    match seq_step(ext, image, arch, scratch) {
        StepAnswer::Done(commit) => {
            put_step(out, number, &commit);
            true
        }
        StepAnswer::Stopped(stop) => {
            put_stop_line(out, stop);
            false
        }
    }
}

// Writes the lines of at most so many steps, but for what stays in the buffer.
fn write_steps<S: Sink>(
    ext: &Extension,
    image: &Image,
    steps: u32,
    arch: &mut Arch,
    scratch: &mut Scratch,
    out: &mut Out,
    sink: &mut S,
) -> Result<(), WriteErr>
    requires well_formed { IsWellFormed ext.now }
    requires wide { AreWide (view_extension ext.now) arch.old.custom }
    requires scratch { IsScratchOf (view_extension ext.now) scratch.old }
    ensures carries { OnOk result (Carries (S.written sink.old) out.old (lines_from (view_extension ext.now) image.now steps 0 arch.old) (S.written sink.new) out.new (state_text (view_extension ext.now) [] arch.new)) }
    ensures breaks { OnErr result (Breaks (S.written sink.old) out.old (lines_from (view_extension ext.now) image.now steps 0 arch.old) (S.written sink.new)) }
    ensures fault { OnErr result (Rose (S.faults sink.old) (S.faults sink.new)) }
    ensures never_fell { S.faults sink.old ≤ S.faults sink.new }
{
    for number in 0..steps {
        match make_room(out, sink) {
            Ok(()) => {
                if !step_told(ext, image, number, arch, scratch, out) {
                    return Ok(());
                }
            }
            Err(error) => return Err(error),
        }
    }
    Ok(())
}

// Writes the run and the state behind it.
fn write_whole<S: Sink>(
    ext: &Extension,
    image: &Image,
    steps: u32,
    arch: &mut Arch,
    scratch: &mut Scratch,
    out: &mut Out,
    sink: &mut S,
) -> Result<(), WriteErr>
    requires well_formed { IsWellFormed ext.now }
    requires wide { AreWide (view_extension ext.now) arch.old.custom }
    requires scratch { IsScratchOf (view_extension ext.now) scratch.old }
    requires few { length ext.now.registers ≤ 16 }
    requires empty { out.old ≡ [] }
    ensures whole { OnOk result (Appends (S.written sink.old) (S.written sink.new) (lines_from (view_extension ext.now) image.now steps 0 arch.old)) }
    ensures front { OnErr result (AppendsFront (S.written sink.old) (S.written sink.new) (lines_from (view_extension ext.now) image.now steps 0 arch.old)) }
    ensures fault { OnErr result (Rose (S.faults sink.old) (S.faults sink.new)) }
{
    match write_steps(ext, image, steps, arch, scratch, out, sink) {
        Ok(()) => match write_state(ext.registers.len(), &[], arch, out, sink) {
            Ok(()) => out.flush(sink),
            Err(error) => Err(error),
        },
        Err(error) => Err(error),
    }
}

// Tells the run from the first state on.
fn tell<S: Sink>(
    ext: &Extension,
    image: &Image,
    steps: u32,
    arch: &mut Arch,
    scratch: &mut Scratch,
    out: &mut Out,
    sink: &mut S,
) -> Result<(), RunErr>
    requires well_formed { IsWellFormed ext.now }
    requires first { arch.old ≡ first (view_extension ext.now) }
    requires wide { AreWide (view_extension ext.now) arch.old.custom }
    requires scratch { IsScratchOf (view_extension ext.now) scratch.old }
    requires few { length ext.now.registers ≤ 16 }
    requires empty { out.old ≡ [] }
    ensures whole { OnOk result (Appends (S.written sink.old) (S.written sink.new) (run_text (view_extension ext.now) image.now steps)) }
    ensures front { OnErr result (AppendsFront (S.written sink.old) (S.written sink.new) (run_text (view_extension ext.now) image.now steps)) }
    ensures rose { OnErr result (Rose (S.faults sink.old) (S.faults sink.new)) }
    ensures fault { IfErr result (λ e. e ≡ RunErr.Fault) }
{
    match write_whole(ext, image, steps, arch, scratch, out, sink) {
        Ok(()) => Ok(()),
        Err(_) => Err(RunErr::Fault),
    }
}

/// Runs an image on a core with a well-formed extension, one instruction at a time and for at most so many steps, and writes the
/// text of the run: a line a step, the stop, and the state. All memory is taken before the first step.
pub fn write_run<S: Sink>(
    alloc: Global,
    ext: &Extension,
    image: &Image,
    steps: u32,
    sink: &mut S,
) -> Result<(), RunErr>
    requires { IsWellFormed ext.now }
    ensures whole { OnOk result (Appends (S.written sink.old) (S.written sink.new) (run_text (view_extension ext.now) image.now steps)) }
    ensures fault { result ≡ Err RunErr.Fault → Rose (S.faults sink.old) (S.faults sink.new) × AppendsFront (S.written sink.old) (S.written sink.new) (run_text (view_extension ext.now) image.now steps) }
    ensures memory { result ≡ Err RunErr.Memory → S.written sink.new ≡ S.written sink.old }
{
    behaviour_laws();
    let Ok(mut out) = Out::new(alloc) else {
        return Err(RunErr::Memory);
    };
    let Ok(mut arch) = Arch::new(alloc, ext) else {
        return Err(RunErr::Memory);
    };
    let Ok(mut scratch) = Scratch::new(alloc, ext) else {
        return Err(RunErr::Memory);
    };
    tell(ext, image, steps, &mut arch, &mut scratch, &mut out, sink)
}
