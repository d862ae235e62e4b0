ghost use Rattle.std.specs.Prelude.{◌≡◌, ℕ, ◌+◌, ◌≤◌, ◌<◌, List, ◌∷◌, [], length, map, vec_capacity, Some, None, ◌⊎◌, IfOk, OnOk, OnErr, Err};
ghost use Rattle.ix_behaviour.specs.declared.which.Which.{Which as TheWhich};
ghost use Rattle.ix_extension.specs.Extensions.{view_extension};
ghost use Rattle.ix_extension.specs.WellFormed.{IsWellFormed};
ghost use Rattle.ix_io.specs.Faults.{Rose};
ghost use Rattle.ix_io.specs.Sink.{Appends, AppendsFront};
ghost use Rattle.ix_sheet.specs.Sheets.{IsValidSheet};
ghost use Rattle.ix_standing.specs.Standing.{name_at, Stands};
ghost use Rattle.ix_schedules.specs.Scheduling.{AreNamed};
ghost use Rattle.rv_barrel.specs.Barrels.{IsTurning};
ghost use Rattle.rv_barrel_text.specs.BarrelText.{barrel_text, ends_text};
ghost use Rattle.rv_barrel_text.proofs.Rows.{text_from};
ghost use Rattle.rv_harts.specs.BarrelLaws.{image_of};
ghost use Rattle.rv_harts.specs.BarrelRows.{hart_setting};
ghost use Rattle.rv_harts.specs.HartStates.{outstanding_targets};
ghost use Rattle.rv_text.specs.Telling.{Carries, Breaks};
ghost use Rattle.ix_words.specs.declared.command.Command.{Command as TheCommand};
ghost use Rattle.ix_words.specs.Readings.{extension_read, sheet_read, image_read, number_read, reading_of};
ghost use Rattle.ix_tool.specs.BarrelOutput.{is_tight as specified_is_tight, first_tight, tight_behaviour, tight_line};
ghost use Rattle.ix_tool.specs.CommandOutput.{Answered, TakesBarrel, Writes};

use crate::tool::{finish, refuse};
use ix_behaviour::{Which, behaviour_laws};
use ix_bits::Memory;
use ix_design::build;
use ix_graph::Mode;
use ix_io::{Out, Sink, WriteErr};
use ix_plan::{Design, Plan, Target};
use ix_schedules::{behaviours_in, name_of, refusal_text};
use ix_sheet::Sheet;
use ix_tree::Extension;
use ix_words::status::Status;
use ix_words::value::Value;
use rv_barrel::{Barrel, quiet_row};
use rv_barrel_text::{write_ends, write_row};
use rv_core::Shape;
use rv_isa::Image;
use rv_text::RunErr;
use std::alloc::Global;

/// So many registers of a hart can have an outstanding write: 32 of the base, and 16 custom ones.
const MOST_TARGETS: u32 = 48;

/// Lists the registers of a hart with outstanding writes, in the order of retirement, in reserved room.
fn list_outstanding(barrel: &Barrel<'_>, hart: u8, list: &mut Vec<(u32, Target)>)
    requires hart { hart < 2 }
    requires empty { list.old.items ≡ [] }
    requires room { 48 ≤ vec_capacity list.old }
    ensures few { length list.new.items ≤ 48 }
    ensures list { list.new.items ≡ outstanding_targets (hart_setting barrel.now.design (image_of barrel.now.first barrel.now.second hart)) hart barrel.now.made }
{
    'targets: for k in 0..MOST_TARGETS {
        match barrel.outstanding(hart, k) {
            Some(one) => list.push(one).unwrap(),
            None => break,
        }
    }
}

/// Makes rows until both harts have stopped, or no more may be made, and writes their lines, but for what stays in the buffer.
fn write_rows<S: Sink>(
    barrel: &mut Barrel<'_>,
    shape: Shape,
    cycles: u32,
    out: &mut Out,
    sink: &mut S,
) -> Result<(), WriteErr>
    requires first { barrel.old.made ≡ 0 }
    requires spare { barrel.old.cycles ≡ cycles }
    requires shape { shape ≡ barrel.old.design.sheet.shape }
    ensures design { barrel.new.design ≡ barrel.old.design }
    ensures images { (barrel.new.first ≡ barrel.old.first) × (barrel.new.second ≡ barrel.old.second) }
    ensures carries { OnOk result (Carries (S.written sink.old) out.old (text_from barrel.old.design barrel.old.first barrel.old.second cycles 0) (S.written sink.new) out.new (ends_text barrel.old.design barrel.old.first barrel.old.second barrel.new.made)) }
    ensures breaks { OnErr result (Breaks (S.written sink.old) out.old (text_from barrel.old.design barrel.old.first barrel.old.second cycles 0) (S.written sink.new)) }
    ensures fault { OnErr result (Rose (S.faults sink.old) (S.faults sink.new)) }
    ensures never_fell { S.faults sink.old ≤ S.faults sink.new }
{
    let mut row = quiet_row();
    for number in 0..cycles {
        if barrel.is_done() {
            return Ok(());
        }
        barrel.cycle_into(&mut row);
        match write_row(number, shape, &row, out, sink) {
            Ok(()) => {}
            Err(error) => return Err(error),
        }
    }
    Ok(())
}

/// Writes the run of a barrel of which no row is made, whose outstanding writes are listed in reserved room.
fn tell<S: Sink>(
    design: &Design,
    barrel: &mut Barrel<'_>,
    cycles: u32,
    one: &mut Vec<(u32, Target)>,
    other: &mut Vec<(u32, Target)>,
    out: &mut Out,
    sink: &mut S,
) -> Result<(), WriteErr>
    requires design { design.now ≡ barrel.old.design }
    requires first { barrel.old.made ≡ 0 }
    requires spare { barrel.old.cycles ≡ cycles }
    requires few { length design.now.extension.registers ≤ 16 }
    requires empty { out.old ≡ [] }
    requires lists { (one.old.items ≡ []) × (other.old.items ≡ []) }
    requires room { (48 ≤ vec_capacity one.old) × (48 ≤ vec_capacity other.old) }
    ensures whole { OnOk result (Appends (S.written sink.old) (S.written sink.new) (barrel_text design.now barrel.old.first barrel.old.second cycles)) }
    ensures front { OnErr result (AppendsFront (S.written sink.old) (S.written sink.new) (barrel_text design.now barrel.old.first barrel.old.second cycles)) }
    ensures fault { OnErr result (Rose (S.faults sink.old) (S.faults sink.new)) }
{
    match write_rows(barrel, design.sheet.shape, cycles, out, sink) {
        Ok(()) => {
            list_outstanding(barrel, 0, one);
            list_outstanding(barrel, 1, other);
            write_ends(
                design.extension.registers.len(),
                one.as_slice(),
                barrel.arch(0),
                other.as_slice(),
                barrel.arch(1),
                out,
                sink,
            )
        }
        Err(error) => Err(error),
    }
}

/// Runs two images in turn on the core and with the extension of a design, for so many cycles or until both have stopped, and writes the text of the run: the lines of each row, and
/// both states. All memory is taken before the first row.
fn write_barrel<S: Sink>(
    alloc: Global,
    design: &Design,
    first: &Image,
    second: &Image,
    cycles: u32,
    sink: &mut S,
) -> Result<(), RunErr>
    requires stands { Stands design.now }
    requires turns { IsTurning design.now }
    ensures whole { OnOk result (Appends (S.written sink.old) (S.written sink.new) (barrel_text design.now first.now second.now cycles)) }
    ensures fault { result ≡ Err RunErr.Fault → Rose (S.faults sink.old) (S.faults sink.new) × AppendsFront (S.written sink.old) (S.written sink.new) (barrel_text design.now first.now second.now cycles) }
    ensures memory { result ≡ Err RunErr.Memory → S.written sink.new ≡ S.written sink.old }
{
    behaviour_laws();
    let Ok(mut out) = Out::new(alloc) else {
        return Err(RunErr::Memory);
    };
    let Ok(mut one) = Vec::with_capacity(alloc, MOST_TARGETS as usize) else {
        return Err(RunErr::Memory);
    };
    let Ok(mut other) = Vec::with_capacity(alloc, MOST_TARGETS as usize) else {
        return Err(RunErr::Memory);
    };
    let Ok(mut barrel) = Barrel::new(alloc, design, first, second, cycles) else {
        return Err(RunErr::Memory);
    };
    match tell(
        design,
        &mut barrel,
        cycles,
        &mut one,
        &mut other,
        &mut out,
        sink,
    ) {
        Ok(()) => Ok(()),
        Err(_) => Err(RunErr::Fault),
    }
}

/// Whether what has this mode stays in the last stage for its own sake.
fn is_tight(mode: Mode) -> bool
    ensures { result ≡ specified_is_tight mode }
{
    match mode {
        Mode::Tight => true,
        Mode::InPipeline | Mode::Decoupled | Mode::Always => false,
    }
}

/// The first of these behaviours whose plan is Tight, where their plans are in the same order.
fn first_tight_in(behaviours: &[Which], plans: &[Plan]) -> Option<Which>
    ensures { result ≡ first_tight behaviours.now plans.now }
{
    match behaviours {
        [] => None,
        [which, rest @ ..] => match plans {
            [] => None,
            [plan, others @ ..] => {
                if is_tight(plan.mode) {
                    Some(*which)
                } else {
                    first_tight_in(rest, others)
                }
            }
        },
    }
}

/// The first Tight behaviour of a design, in the order of the source.
fn tight_in(alloc: Global, design: &Design) -> Result<Option<Which>, Memory>
    requires { Stands design.now }
    ensures { IfOk result (λ tight. tight ≡ tight_behaviour design.now) }
{
    behaviour_laws();
    match behaviours_in(alloc, &design.extension) {
        Ok(behaviours) => Ok(first_tight_in(behaviours.as_slice(), design.plans.as_slice())),
        Err(error) => Err(error),
    }
}

/// Writes the refusal of a Tight behaviour.
fn refuse_tight<S: Sink>(alloc: Global, name: &str, sink: &mut S) -> Status
    ensures { ((result ≡ Status.Memory) × (S.written sink.new ≡ S.written sink.old))
        ⊎ Writes Status.Barrel (tight_line name.now) (S.written sink.old) (S.written sink.new) (S.faults sink.old) (S.faults sink.new) result }
{
    match format!(in alloc; "refused Barrel {name}\n") {
        Ok(text) => finish(sink, Status::Barrel, text.as_bytes()),
        Err(_) => Status::Memory,
    }
}

/// Writes the run of two images on the core and with the extension of a design without a Tight behaviour, and answers the status.
fn run_barrel<S: Sink>(
    alloc: Global,
    design: &Design,
    first: &Image,
    second: &Image,
    cycles: u32,
    sink: &mut S,
) -> Status
    requires stands { Stands design.now }
    requires turns { IsTurning design.now }
    ensures { ((result ≡ Status.Memory) × (S.written sink.new ≡ S.written sink.old))
        ⊎ Writes Status.Ok (barrel_text design.now first.now second.now cycles) (S.written sink.old) (S.written sink.new) (S.faults sink.old) (S.faults sink.new) result }
{
    match write_barrel(alloc, design, first, second, cycles, sink) {
        Ok(()) => Status::Ok,
        Err(RunErr::Memory) => Status::Memory,
        Err(RunErr::Fault) => Status::WriteFault,
    }
}

/// Writes the run of two images on the core and with the extension of a design, or the refusal of its first Tight behaviour.
fn barrel_design<S: Sink>(
    alloc: Global,
    design: &Design,
    first: &Image,
    second: &Image,
    cycles: u32,
    sink: &mut S,
) -> Status
    requires stands { Stands design.now }
    requires near { design.now.sheet.shape.stages ≤ design.now.sheet.shape.mem + 2 }
    ensures { ((result ≡ Status.Memory) × (S.written sink.new ≡ S.written sink.old))
        ⊎ (((w : TheWhich) × (tight_behaviour design.now ≡ Some w) × Writes Status.Barrel (tight_line (name_at (view_extension design.now.extension) w)) (S.written sink.old) (S.written sink.new) (S.faults sink.old) (S.faults sink.new) result)
        ⊎ ((tight_behaviour design.now ≡ None) × Writes Status.Ok (barrel_text design.now first.now second.now cycles) (S.written sink.old) (S.written sink.new) (S.faults sink.old) (S.faults sink.new) result)) }
{
    match tight_in(alloc, design) {
        Ok(Some(which)) => refuse_tight(alloc, name_of(&design.extension, which), sink),
        Ok(None) => run_barrel(alloc, design, first, second, cycles, sink),
        Err(_) => Status::Memory,
    }
}

/// Writes the run of two images in turn on the core of a datasheet with an extension, or the refusal of the first behaviour that is not scheduled, or else of the first that is Tight.
fn barrel_extension<S: Sink>(
    alloc: Global,
    extension: Extension,
    sheet: Sheet,
    first: &Image,
    second: &Image,
    cycles: u32,
    sink: &mut S,
) -> Status
    requires well_formed { IsWellFormed extension }
    requires named { AreNamed (view_extension extension) }
    requires sheet { IsValidSheet sheet }
    requires near { sheet.shape.stages ≤ sheet.shape.mem + 2 }
    ensures { Answered TheCommand.Barrel (extension_read (view_extension extension) ∷ sheet_read sheet ∷ image_read first.now ∷ image_read second.now ∷ number_read cycles ∷ []) (S.written sink.old) (S.written sink.new) (S.faults sink.old) (S.faults sink.new) result }
{
    match build(alloc, &extension, &sheet) {
        Ok(built) => {
            let design = Design {
                extension,
                sheet,
                plans: built.plans,
                nets: built.nets,
            };
            barrel_design(alloc, &design, first, second, cycles, sink)
        }
        Err(error) => refuse(refusal_text(alloc, &extension, &sheet, error), sink),
    }
}

/// Writes what an extension, a datasheet and these values ask for.
fn barrel_on_sheet<S: Sink>(
    alloc: Global,
    extension: Extension,
    sheet: Sheet,
    values: &[Value],
    sink: &mut S,
) -> Status
    requires { TakesBarrel (extension_read (view_extension extension) ∷ sheet_read sheet ∷ map reading_of values.now) }
    ensures { Answered TheCommand.Barrel (extension_read (view_extension extension) ∷ sheet_read sheet ∷ map reading_of values.now) (S.written sink.old) (S.written sink.new) (S.faults sink.old) (S.faults sink.new) result }
{
    match values {
        [
            Value::Image(first),
            Value::Image(second),
            Value::Number(cycles),
        ] => barrel_extension(alloc, extension, sheet, first, second, *cycles, sink),
        _ => unreachable!(),
    }
}

/// Writes what an extension and these values ask for.
fn barrel_with<S: Sink>(
    alloc: Global,
    extension: Extension,
    values: Vec<Value>,
    sink: &mut S,
) -> Status
    requires { TakesBarrel (extension_read (view_extension extension) ∷ map reading_of values.items) }
    ensures { Answered TheCommand.Barrel (extension_read (view_extension extension) ∷ map reading_of values.items) (S.written sink.old) (S.written sink.new) (S.faults sink.old) (S.faults sink.new) result }
{
    let mut values = values;
    match values.remove(0) {
        Value::Sheet(sheet) => barrel_on_sheet(alloc, extension, sheet, values.as_slice(), sink),
        _ => unreachable!(),
    }
}

/// Writes the run of two harts that these values ask for.
pub(crate) fn answer_barrel<S: Sink>(alloc: Global, values: Vec<Value>, sink: &mut S) -> Status
    requires { TakesBarrel (map reading_of values.items) }
    ensures { Answered TheCommand.Barrel (map reading_of values.items) (S.written sink.old) (S.written sink.new) (S.faults sink.old) (S.faults sink.new) result }
{
    let mut values = values;
    match values.remove(0) {
        Value::Extension(extension) => barrel_with(alloc, extension, values, sink),
        _ => unreachable!(),
    }
}
