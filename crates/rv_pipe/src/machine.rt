ghost use Rattle.std.specs.Option.{option_copied};
ghost use Rattle.std.specs.Prelude.{◌≡◌, ◌+◌, ◌<◌, List, ℕ, [], ◌∷◌, None, Some, length, reverse, slice_get, IfOk};
ghost use Rattle.ix_net.specs.declared.netlist.Port.{Port};
ghost use Rattle.ix_extension.specs.Extensions.{view_extension};
ghost use Rattle.ix_standing.specs.Standing.{Stands};
ghost use Rattle.rv_seq.specs.Runs.{run_with};
ghost use Rattle.rv_trace.specs.Trace.{newest, retirements};
ghost use Rattle.rv_lawful.specs.Settings.{entries_at, setting as lawful_setting};
ghost use Rattle.rv_lawful.specs.Entering.{places};
ghost use Rattle.rv_lawful.specs.Outstanding.{architecture, applied_state, outstanding_targets};
ghost use Rattle.rv_lawful.specs.Headline.{Headline};
ghost use Rattle.rv_machine.specs.Owing.{targets_owed};
ghost use Rattle.rv_machine.specs.Running.{AreRows, machine_at};
ghost use Rattle.rv_engine.specs.Settings.{setting};
ghost use Rattle.rv_engine.specs.Showing.{shown_of};
ghost use Rattle.rv_machine.specs.Promises.{IsRunnable};
ghost use Rattle.rv_nets.specs.Modules.{AllStep, drivers_of, ports_shown};
ghost use Rattle.rv_ports.specs.Driven.{AreDriven, ports_of, port_values};
ghost use Rattle.rv_ports.specs.Drives.{drives_of};
ghost use Rattle.rv_machine.specs.Promise.{AllPromised};
ghost use Rattle.rv_trace.specs.declared.row.Row.{Row as TraceRow};

use crate::pipeline::{Pipeline, nothing_shown, quiet};
use ix_behaviour::behaviour_laws;
use ix_bits::{Bits, Memory};
use ix_plan::{Design, Target};
use rv_isa::Image;
use rv_machine::{promise_law, rows_laws};
use rv_nets::{Modules, nets_law};
use rv_seq::Arch;
use rv_sight::sight_laws;
use rv_trace::{Row, Trace};
use rv_waits::{Lines, Waits};
use std::alloc::Global;
use std::marker::Model;

/// A pipeline with the extension of a design over an image, the rows that it made, and the modules beside it. All memory is taken when it is made.
#[derive(Drop)]
pub struct Machine<'a> {
    pipeline: Pipeline<'a>,
    trace: Trace,
    modules: Modules<'a>,
}

impl<'a> Model for Machine<'a> {
    ghost use Rattle.std.specs.Prelude.{reverse};
    ghost use Rattle.std.specs.Coded.{codes};
    ghost use Rattle.ix_tree.specs.contracts.typed.TypedStmtKind as statements;
    ghost use Rattle.rv_pipe.specs.Machines.{Running, IsSound};

    ghost Value = { Running };

    ghost coded = { Prim.hlevel (codes, statements.the_row.coded) };

    ghost view = { λ m. record { setting = m.pipeline.setting; rows = reverse m.trace.rows; spare = m.trace.spare; modules = m.modules } };

    ghost invariant = { λ m. IsSound m.pipeline.setting m.pipeline.machine (reverse m.trace.rows) m.trace.spare m.modules };
}

impl<'a> Machine<'a> {
    /// A machine before its first row, over a memory with these waits and without an interrupt line, with room for so many rows. A module with 2^32 ports or more is
    /// one for which there is no memory.
    pub fn new(
        alloc: Global,
        design: &'a Design,
        image: &'a Image,
        waits: &'a Waits,
        cycles: u32,
    ) -> Result<Machine<'a>, Memory>
        requires stands { Stands design.now }
        ensures setting { IfOk result (λ m. m.setting ≡ setting design.now image.now waits.now None) }
        ensures rows { IfOk result (λ m. m.rows ≡ []) }
        ensures spare { IfOk result (λ m. m.spare ≡ cycles) }
        ensures modules { IfOk result (λ m. m.modules ≡ drivers_of design.now) }
    {
        Machine::at_rest(alloc, design, image, waits, None, cycles)
    }

    /// The same with an interrupt line that is raised in these rows (numbers of cycles, from 0).
    pub fn with_lines(
        alloc: Global,
        design: &'a Design,
        image: &'a Image,
        waits: &'a Waits,
        lines: &'a Lines,
        cycles: u32,
    ) -> Result<Machine<'a>, Memory>
        requires stands { Stands design.now }
        ensures setting { IfOk result (λ m. m.setting ≡ setting design.now image.now waits.now (Some lines.now)) }
        ensures rows { IfOk result (λ m. m.rows ≡ []) }
        ensures spare { IfOk result (λ m. m.spare ≡ cycles) }
        ensures modules { IfOk result (λ m. m.modules ≡ drivers_of design.now) }
    {
        Machine::at_rest(alloc, design, image, waits, Some(lines), cycles)
    }

    /// The same with an interrupt line or without one.
    fn at_rest(
        alloc: Global,
        design: &'a Design,
        image: &'a Image,
        waits: &'a Waits,
        lines: Option<&'a Lines>,
        cycles: u32,
    ) -> Result<Machine<'a>, Memory>
        requires stands { Stands design.now }
        ensures setting { IfOk result (λ m. m.setting ≡ setting design.now image.now waits.now (option_copied lines.entry)) }
        ensures rows { IfOk result (λ m. m.rows ≡ []) }
        ensures spare { IfOk result (λ m. m.spare ≡ cycles) }
        ensures modules { IfOk result (λ m. m.modules ≡ drivers_of design.now) }
    {
        behaviour_laws();
        sight_laws();
        let trace = Trace::new(alloc, cycles)?;
        let pipeline = Pipeline::new(alloc, design, image, waits, lines)?;
        let modules = Modules::new(alloc, design)?;
        Ok(Machine {
            pipeline,
            trace,
            modules,
        })
    }

    /// One more row. Takes no memory.
    pub fn cycle(&mut self) -> Row
        requires going { (newest self.old.rows).stop ≡ None }
        requires spare { 0 < self.old.spare }
        ensures rows { self.new.rows ≡ result ∷ self.old.rows }
        ensures setting { self.new.setting ≡ self.old.setting }
        ensures spare { self.new.spare + 1 ≡ self.old.spare }
        ensures are_rows { AreRows self.new.setting self.new.rows }
        ensures modules { AllStep (shown_of self.old.setting (machine_at self.old.setting self.old.rows)) self.old.modules self.new.modules }
        ensures headline { IsRunnable self.new.setting.design self.new.setting.image → Headline self.new.setting.design self.new.setting.image self.new.setting.waits self.new.setting.lines self.new.rows }
    {
        rows_laws();
        let mut shown = nothing_shown();
        let mut row = quiet();
        self.pipeline.cycle(true, &mut shown, &mut row);
        self.modules.step(&shown);
        self.trace.push(row);
        row
    }

    /// What port k shows in the last row, the ports of the design's modules counted in their order, the inputs of each before its outputs: 0 before the first row. Wherever a token
    /// stands at the time of an output, and its cell is neither flushed nor due to stop nor waits for what it reads, that output shows the value of the sequential run at its place. With
    /// an interrupt line that is the run that goes to the handler where the rows before the last one took an interrupt. Takes no memory.
    pub fn port(&self, k: u32) -> Bits
        requires inside { k < length (ports_of self.now.setting.design.nets) }
        ensures value { slice_get (ports_shown self.now.modules) k ≡ Some result.raw }
        ensures width { (p : Port) → slice_get (ports_of self.now.setting.design.nets) k ≡ Some p → result.width ≡ p.width }
        ensures driven { (row : TraceRow) (earlier : List TraceRow) → self.now.rows ≡ row ∷ earlier → IsRunnable self.now.setting.design self.now.setting.image → (runs : List (List (List ℕ))) × AreDriven (drives_of self.now.setting.design self.now.setting.image self.now.setting.waits self.now.setting.lines) self.now.setting.design.plans self.now.setting.design.nets self.now.rows runs × AllPromised (drives_of self.now.setting.design self.now.setting.image self.now.setting.waits self.now.setting.lines) self.now.setting.design.plans self.now.setting.design.nets self.now.rows runs × (slice_get (port_values self.now.setting.design.nets runs (length earlier)) k ≡ Some result.raw) }
    {
        rows_laws();
        nets_law();
        promise_law();
        self.modules.port(k)
    }

    /// The rows so far, oldest first.
    pub fn trace(&self) -> &Trace
        ensures rows { result.now.rows ≡ reverse self.now.rows }
        ensures are_rows { AreRows self.now.setting self.now.rows }
    {
        &self.trace
    }

    /// The architectural state after the last row: that which the rows make. With the outstanding writes applied in the order of retirement it is that of the run one instruction
    /// at a time, which goes to the handler where the rows do, behind as many instructions as were retired.
    pub fn arch(&self) -> &Arch
        ensures made { result.now ≡ (machine_at self.now.setting self.now.rows).arch }
        ensures state { IsRunnable self.now.setting.design self.now.setting.image → result.now ≡ architecture (view_extension self.now.setting.design.extension) (lawful_setting self.now.setting.design self.now.setting.image self.now.setting.waits self.now.setting.lines (places self.now.rows)) self.now.rows }
        ensures applied { IsRunnable self.now.setting.design self.now.setting.image → applied_state (view_extension self.now.setting.design.extension) (lawful_setting self.now.setting.design self.now.setting.image self.now.setting.waits self.now.setting.lines (places self.now.rows)) self.now.rows ≡ run_with (view_extension self.now.setting.design.extension) self.now.setting.image (entries_at self.now.setting.design.sheet.shape.trap self.now.setting.lines (places self.now.rows)) (retirements self.now.rows) }
    {
        rows_laws();
        self.pipeline.arch()
    }

    /// The k-th register with an outstanding write after the last row, in the order of retirement and the x register of an instruction before its custom ones, with the count of
    /// fetches before the instruction; none where there are no more than k. Takes no memory.
    pub fn outstanding(&self, k: u32) -> Option<(u32, Target)>
        ensures owed { result ≡ slice_get (targets_owed (machine_at self.now.setting self.now.rows).owed) k }
        ensures listed { IsRunnable self.now.setting.design self.now.setting.image → result ≡ slice_get (outstanding_targets (lawful_setting self.now.setting.design self.now.setting.image self.now.setting.waits self.now.setting.lines (places self.now.rows)) self.now.rows) k }
    {
        rows_laws();
        self.pipeline.outstanding(k)
    }
}
