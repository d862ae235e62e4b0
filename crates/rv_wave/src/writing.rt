ghost use Rattle.std.specs.Prelude.{◌≡◌, ◌≢◌, ℕ, ◌+◌, ◌<◌, ◌≤◌, ◌^◌, List, [], ◌∷◌, Option, None, true, false, length, OnOk, Err};
ghost use Rattle.ix_io.specs.Faults.{Rose};
ghost use Rattle.ix_io.specs.Sink.{Appends, AppendsFront};
ghost use Rattle.ix_bits.specs.declared.number.Bits.{Bits as TheBits};
ghost use Rattle.ix_dump.specs.Dump.{dump_ports};
ghost use Rattle.ix_standing.specs.Standing.{Stands};
ghost use Rattle.rv_trace.specs.Trace.{newest};
ghost use Rattle.rv_trace.specs.declared.row.Row.{Row as TraceRow};
ghost use Rattle.rv_engine.specs.Settings.{Setting};
ghost use Rattle.rv_engine.specs.Showing.{shown_of};
ghost use Rattle.rv_machine.specs.Running.{AreRows, machine_at};
ghost use Rattle.rv_nets.specs.Modules.{Driver, AllStep, drivers_of};
ghost use Rattle.rv_ports.specs.Driven.{ports_of};
ghost use Rattle.rv_wave.specs.Sent.{IsSent, IsEnded};
ghost use Rattle.rv_wave.specs.Waves.{IsDesignWave};

use crate::reading::{make_values, read_ports};
use ix_bits::Bits;
use ix_dump::{count_ports, write_head, write_row};
use ix_io::{Out, Sink};
use ix_net::Net;
use ix_plan::Design;
use rv_isa::Image;
use rv_nets::nets_law;
use rv_pipe::Machine;
use rv_text::RunErr;
use rv_waits::Waits;
use std::alloc::Global;

/// Writes the head, but for what stays in the buffer. Answers whether no write failed.
fn begin<S: Sink>(nets: &[Net], out: &mut Out, sink: &mut S) -> bool
    requires first { out.old ≡ [] }
    requires few { length (dump_ports nets.now) < 2 ^ 32 }
    ensures { (k : Setting) (before : List TheBits) → k.design.nets ≡ nets.now → IsSent result k [] (drivers_of k.design) before (S.written sink.old) (S.written sink.new) out.new (S.faults sink.old) (S.faults sink.new) }
{
    match write_head(nets, out, sink) {
        Ok(()) => true,
        Err(_) => false,
    }
}

/// Writes the newest row of a machine, where no write failed before, but for what stays in the buffer. Answers whether no write failed.
fn show_row<S: Sink>(
    machine: &Machine<'_>,
    number: u32,
    going: bool,
    before: &mut [Bits],
    now: &mut [Bits],
    out: &mut Out,
    sink: &mut S,
) -> bool
    requires number { number + 1 ≡ length machine.now.rows }
    requires before { length before.old ≡ length (ports_of machine.now.setting.design.nets) }
    requires now { length now.old ≡ length (ports_of machine.now.setting.design.nets) }
    requires few { length now.old < 2 ^ 32 }
    requires as_many { length machine.now.setting.design.plans ≡ length machine.now.setting.design.nets }
    ensures before { length before.new ≡ length before.old }
    ensures now { length now.new ≡ length now.old }
    ensures sent { (row : TraceRow) (earlier : List TraceRow) (modules : List Driver) (first : Option (List ℕ)) (faults : ℕ) → machine.now.rows ≡ row ∷ earlier
        → AllStep (shown_of machine.now.setting (machine_at machine.now.setting earlier)) modules machine.now.modules
        → IsSent going machine.now.setting earlier modules before.old first (S.written sink.old) out.old faults (S.faults sink.old)
        → IsSent result machine.now.setting machine.now.rows machine.now.modules before.new first (S.written sink.new) out.new faults (S.faults sink.new) }
{
    if !going {
        return false;
    }
    read_ports(machine, now);
    match write_row(number, before, now, out, sink) {
        Ok(()) => {
            before.copy_from_slice(now);
            true
        }
        Err(_) => false,
    }
}

/// Makes rows until one has a stop, or no more fit, and writes each, where no write failed before. Answers whether no write failed.
fn write_rows<S: Sink>(
    machine: &mut Machine<'_>,
    cycles: u32,
    headed: bool,
    before: &mut [Bits],
    now: &mut [Bits],
    out: &mut Out,
    sink: &mut S,
) -> bool
    requires first { machine.old.rows ≡ [] }
    requires spare { machine.old.spare ≡ cycles }
    requires before { length before.old ≡ length (ports_of machine.old.setting.design.nets) }
    requires now { length now.old ≡ length (ports_of machine.old.setting.design.nets) }
    requires few { length now.old < 2 ^ 32 }
    requires as_many { length machine.old.setting.design.plans ≡ length machine.old.setting.design.nets }
    ensures setting { machine.new.setting ≡ machine.old.setting }
    ensures are_rows { AreRows machine.new.setting machine.new.rows }
    ensures few { length machine.new.rows ≤ cycles }
    ensures whole { (newest machine.new.rows).stop ≡ None → length machine.new.rows ≡ cycles }
    ensures sent { (first : Option (List ℕ)) (faults : ℕ) → IsSent headed machine.old.setting [] machine.old.modules before.old first (S.written sink.old) out.old faults (S.faults sink.old)
        → IsSent result machine.new.setting machine.new.rows machine.new.modules before.new first (S.written sink.new) out.new faults (S.faults sink.new) }
{
    let mut going = headed;
    'rows: for number in 0..cycles {
        let row = machine.cycle();
        going = show_row(machine, number, going, before, now, out, sink);
        if row.stop.is_some() {
            break;
        }
    }
    going
}

/// Sends what waits in the buffer, where no write failed before. Answers whether no write failed.
fn end<S: Sink>(going: bool, out: &mut Out, sink: &mut S) -> bool
    ensures { (k : Setting) (rows : List TraceRow) (modules : List Driver) (before : List TheBits) (first : Option (List ℕ)) (faults : ℕ)
        → IsSent going k rows modules before first (S.written sink.old) out.old faults (S.faults sink.old)
        → IsEnded result k rows modules first (S.written sink.new) faults (S.faults sink.new) }
{
    if !going {
        return false;
    }
    match out.flush(sink) {
        Ok(()) => true,
        Err(_) => false,
    }
}

/// Whether no write failed, as an answer.
fn told(sent: bool) -> Result<(), RunErr>
    ensures whole { OnOk result (sent ≡ true) }
    ensures fault { result ≡ Err RunErr.Fault → sent ≡ false }
    ensures memory { result ≢ Err RunErr.Memory }
{
    if sent { Ok(()) } else { Err(RunErr::Fault) }
}

/// Runs an image on the core and with the extension of a design, over a memory with these waits, for so many cycles or to a stop, and writes what the ports of the design's modules show
/// in each row as a value change dump. All memory is taken before the first cycle; a design with 2^32 ports or more is one for which there is none. Where a write fails, the rows go on without
/// being written.
pub fn write_design_wave<S: Sink>(
    alloc: Global,
    design: &Design,
    image: &Image,
    waits: &Waits,
    cycles: u32,
    sink: &mut S,
) -> Result<(), RunErr>
    requires stands { Stands design.now }
    ensures whole { OnOk result ((text : List ℕ) × IsDesignWave design.now image.now waits.now cycles text × Appends (S.written sink.old) (S.written sink.new) text) }
    ensures fault { result ≡ Err RunErr.Fault → Rose (S.faults sink.old) (S.faults sink.new) × ((text : List ℕ) × IsDesignWave design.now image.now waits.now cycles text × AppendsFront (S.written sink.old) (S.written sink.new) text) }
    ensures memory { result ≡ Err RunErr.Memory → S.written sink.new ≡ S.written sink.old }
{
    nets_law();
    let Some(count) = count_ports(design.nets.as_slice()) else {
        return Err(RunErr::Memory);
    };
    let Ok(mut out) = Out::new(alloc) else {
        return Err(RunErr::Memory);
    };
    let Ok(mut before) = make_values(alloc, count) else {
        return Err(RunErr::Memory);
    };
    let Ok(mut now) = make_values(alloc, count) else {
        return Err(RunErr::Memory);
    };
    let Ok(mut machine) = Machine::new(alloc, design, image, waits, cycles) else {
        return Err(RunErr::Memory);
    };
    let headed = begin(design.nets.as_slice(), &mut out, sink);
    let going = write_rows(
        &mut machine,
        cycles,
        headed,
        &mut before,
        &mut now,
        &mut out,
        sink,
    );
    told(end(going, &mut out, sink))
}
