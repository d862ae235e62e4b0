ghost use Rattle.std.specs.Prelude.{◌≡◌, ◌<◌, ◌≤◌, None, false, get_or, length, slice_get, IfOk};
ghost use Rattle.std.specs.Option.{option_or};
ghost use Rattle.ix_eval.specs.Tables.{table};
ghost use Rattle.ix_extension.specs.Extensions.{view_extension};
ghost use Rattle.ix_standing.specs.Standing.{Stands};
ghost use Rattle.rv_harts.specs.BarrelLaws.{image_of, PrefixLaw, StateLaw};
ghost use Rattle.rv_harts.specs.BarrelRows.{hart_setting, barrel_row};
ghost use Rattle.rv_harts.specs.HartStates.{architecture, outstanding_targets};
ghost use Rattle.rv_hart_runs.specs.HartRuns.{AreWords};
ghost use Rattle.rv_barrel.specs.Barrels.{IsTurning, both_stopped, one_more};

use crate::outstanding::nth_outstanding;
use crate::side::{Side, first_side, row_of};
use ix_bits::Memory;
use ix_eval::Scratch;
use ix_plan::{Design, Target};
use rv_asks::{Asking, asking_of};
use rv_hart_runs::hart_runs;
use rv_harts::{BarrelCell, BarrelRow, HartPart};
use rv_isa::Image;
use rv_seq::Arch;
use rv_sight::sight_laws;
use std::alloc::Global;
use std::marker::Model;

/// Two harts in turn in one pipeline with the extension of a design, each over its own image. Memory never waits, and nothing is forwarded or predicted. All memory is taken when it is
/// made.
#[derive(Drop)]
pub struct Barrel<'a> {
    design: &'a Design,
    first: &'a [u32],
    second: &'a [u32],
    asking: Asking,
    scratch: Scratch,
    a: Side,
    b: Side,
    made: u32,
    cycles: u32,
}

impl<'a> Model for Barrel<'a> {
    ghost use Rattle.std.specs.Coded.{codes};
    ghost use Rattle.ix_tree.specs.contracts.typed.TypedStmtKind as statements;
    ghost use Rattle.rv_barrel.specs.Barrels.{Turning, IsBarrel};

    ghost Value = { Turning };

    ghost coded = { Prim.hlevel (codes, statements.the_row.coded) };

    ghost view = { λ b. record { design = b.design.now; first = b.first.now; second = b.second.now; made = b.made; cycles = b.cycles } };

    ghost invariant = { λ b. IsBarrel b.design.now b.first.now b.second.now b.made b.cycles b.asking b.scratch b.a b.b };
}

// The cell of one hart or of the other.
fn either(a: Option<BarrelCell>, b: Option<BarrelCell>) -> Option<BarrelCell>
    ensures { result ≡ option_or a b }
{
    match a {
        None => b,
        cell => cell,
    }
}

// The cells of both harts.
fn joined(a: &[Option<BarrelCell>; 5], b: &[Option<BarrelCell>; 5]) -> [Option<BarrelCell>; 5]
    ensures { result ≡ table (λ stage. option_or (get_or a.now stage None) (get_or b.now stage None)) 5 }
{
    let mut all = [None; 5];
    for stage in 0..5usize {
        all[stage] = either(a[stage], b[stage]);
    }
    all
}

// A hart's part of a row in which nothing happens.
fn quiet() -> HartPart {
    HartPart {
        retired: None,
        written: None,
        flushed: [None; 5],
        redirect: None,
        stop: None,
    }
}

/// A row in which nothing happens.
pub fn quiet_row() -> BarrelRow {
    BarrelRow {
        cells: [None; 5],
        parts: [quiet(); 2],
    }
}

// Takes back what a hart's part of a row shows of a retirement and of outstanding writes: most parts show neither, and then nothing is written.
fn clear(part: &mut HartPart)
    ensures retired { part.new.retired ≡ None }
    ensures written { part.new.written ≡ None }
{
    if part.retired.is_some() {
        part.retired = None;
    }
    if part.written.is_some() {
        part.written = None;
    }
}

impl<'a> Barrel<'a> {
    /// Two harts before their first row, with room for so many rows. The design stands for its extension and sheet, no behaviour of it is tightly coupled, and its last stage is at most
    /// one behind that of memory.
    pub fn new(
        alloc: Global,
        design: &'a Design,
        a: &'a Image,
        b: &'a Image,
        cycles: u32,
    ) -> Result<Barrel<'a>, Memory>
        requires stands { Stands design.now }
        requires turns { IsTurning design.now }
        ensures { IfOk result (λ barrel. barrel ≡ record { design = design.now; first = a.now; second = b.now; made = 0; cycles = cycles }) }
    {
        sight_laws();
        let asking = asking_of(alloc, design)?;
        let scratch = Scratch::new(alloc, &design.extension)?;
        let one = first_side(alloc, design)?;
        let other = first_side(alloc, design)?;
        Ok(Barrel {
            design,
            first: a.as_slice(),
            second: b.as_slice(),
            asking,
            scratch,
            a: one,
            b: other,
            made: 0,
            cycles,
        })
    }

    /// Whether both harts have stopped.
    pub fn is_done(&self) -> bool
        ensures { result ≡ both_stopped self.now }
    {
        self.a.front.stopped && self.b.front.stopped
    }

    /// Puts one more row in place of the last one. Takes no memory.
    pub fn cycle_into(&mut self, row: &mut BarrelRow)
        requires going { both_stopped self.old ≡ false }
        requires spare { self.old.made < self.old.cycles }
        ensures row { row.new ≡ barrel_row self.old.design self.old.first self.old.second self.old.made }
        ensures after { self.new ≡ one_more self.old }
        ensures prefix { PrefixLaw self.old.design self.old.first × PrefixLaw self.old.design self.old.second }
        ensures state { (AreWords self.old.first → StateLaw self.old.design self.old.first) × (AreWords self.old.second → StateLaw self.old.design self.old.second) }
    {
        hart_runs();
        clear(&mut row.parts[0]);
        clear(&mut row.parts[1]);
        let a = row_of(
            self.design,
            &self.asking,
            self.first,
            0,
            self.made,
            &mut self.a,
            &mut self.scratch,
            &mut row.parts[0],
        );
        let b = row_of(
            self.design,
            &self.asking,
            self.second,
            1,
            self.made,
            &mut self.b,
            &mut self.scratch,
            &mut row.parts[1],
        );
        row.cells = joined(&a, &b);
        self.made += 1;
    }

    /// One more row. Takes no memory.
    pub fn cycle(&mut self) -> BarrelRow
        requires going { both_stopped self.old ≡ false }
        requires spare { self.old.made < self.old.cycles }
        ensures row { result ≡ barrel_row self.old.design self.old.first self.old.second self.old.made }
        ensures after { self.new ≡ one_more self.old }
        ensures prefix { PrefixLaw self.old.design self.old.first × PrefixLaw self.old.design self.old.second }
        ensures state { (AreWords self.old.first → StateLaw self.old.design self.old.first) × (AreWords self.old.second → StateLaw self.old.design self.old.second) }
    {
        let mut row = quiet_row();
        self.cycle_into(&mut row);
        row
    }

    /// The architectural state of a hart, 0 or 1, after the last row: that which the rows make.
    pub fn arch(&self, hart: u8) -> &Arch
        requires { hart < 2 }
        ensures { result.now ≡ architecture (view_extension self.now.design.extension) (hart_setting self.now.design (image_of self.now.first self.now.second hart)) hart self.now.made }
    {
        if hart == 0 {
            &self.a.arch
        } else {
            &self.b.arch
        }
    }

    /// The k-th register of a hart, 0 or 1, with an outstanding write after the last row, in the order of retirement and the x register of an instruction before its custom ones, with the
    /// count of the hart's fetches before the instruction; none where there are no more than k. Takes no memory.
    pub fn outstanding(&self, hart: u8, k: u32) -> Option<(u32, Target)>
        requires { hart < 2 }
        ensures target { result ≡ slice_get (outstanding_targets (hart_setting self.now.design (image_of self.now.first self.now.second hart)) hart self.now.made) k }
        ensures few { length (outstanding_targets (hart_setting self.now.design (image_of self.now.first self.now.second hart)) hart self.now.made) ≤ 48 }
    {
        hart_runs();
        if hart == 0 {
            nth_outstanding(self.a.owed.as_slice(), k)
        } else {
            nth_outstanding(self.b.owed.as_slice(), k)
        }
    }
}
